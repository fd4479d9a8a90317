//! Which counters came from an end of a link, as far as it matters for what may still come.

ghost use Rattle.std.specs.Prelude.{◌≡◌, ◌↔◌, ◌≤◌, ◌∷◌, [], List, ℕ, IsTrue};
ghost use Rattle.fw_sealport.specs.Windows.{IsNew, Remembers, width_of};

/// The order in which counters may come.
#[derive(Clone, Copy)]
pub enum Order {
    /// Each counter is taken once. It may be overtaken by less than 64 later ones.
    Loose,
    /// Each counter that is taken is greater than all before it (IEC 62056-5-3).
    Strict,
}

impl Order {
    /// By less than how many a counter may be overtaken.
    pub(crate) fn width(self) -> u64
        ensures width { result ≡ width_of self }
        ensures most { result ≤ 64 }
    {
        match self {
            Order::Loose => 64,
            Order::Strict => 1,
        }
    }
}

/// The counters that were taken from an end, as far as one may still be new.
#[derive(Drop)]
pub(crate) struct Window {
    /// The one after the greatest that was taken, and 0 if none was.
    next: u64,
    /// Bit N is 1 if the one was taken that is N below the greatest.
    bits: u64,
}

impl Window {
    /// None was taken.
    pub(crate) fn new() -> Window
        ensures { Remembers result [] }
    {
        Window { next: 0, bits: 0 }
    }

    /// Whether a counter is new.
    pub(crate) fn is_new(&self, width: u64, counter: u32) -> bool
        requires { width ≤ 64 }
        ensures { (seen : List ℕ) → Remembers self.now seen → IsTrue result ↔ IsNew width seen counter }
    {
        let number = u64::from(counter);
        if self.next <= number {
            return true;
        }
        let back = self.next - number - 1;
        back < width && (self.bits >> back) % 2 == 0
    }

    /// Takes a counter.
    pub(crate) fn take(&mut self, counter: u32)
        ensures { (seen : List ℕ) → Remembers self.old seen → Remembers self.new (counter ∷ seen) }
    {
        let number = u64::from(counter);
        if self.next <= number {
            let rise = number - self.next + 1;
            let kept = if rise < 64 { self.bits << rise } else { 0 };
            self.bits = kept | 1;
            self.next = number + 1;
        } else {
            let back = self.next - number - 1;
            if back < 64 {
                self.bits |= 1 << back;
            }
        }
    }
}
