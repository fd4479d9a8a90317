//! What is dealt to which worker.

ghost use Rattle.std.specs.Prelude.{◌≡◌, ◌≤◌, IfOk, map};
ghost use Rattle.fw_workers.specs.Deals.{shares};

use std::alloc::{AllocError, Global};

/// What is dealt to each worker, in order: that of place j to worker j modulo the number of workers.
///
/// # Errors
///
/// Out of memory alone. The links are then lost.
pub fn dealt<L: Drop>(alloc: Global, links: Vec<L>, workers: u32) -> Result<Vec<Vec<L>>, AllocError>
    requires { 1 ≤ workers }
    ensures dealt { IfOk result (λ all. map (λ share. share.items) all.items ≡ shares workers links.items) }
{
    let mut shares = Vec::new(alloc);
    for _ in 0..workers {
        shares.push(Vec::new(alloc))?;
    }
    for (j, link) in links.into_iter().enumerate() {
        shares[j % workers as usize].push(link)?;
    }
    Ok(shares)
}
