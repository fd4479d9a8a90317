//! What workers are asked before each event.

ghost use Rattle.std.specs.Prelude.{◌≡◌, false};

/// Who may go on, and when.
pub trait Gate {
    /// That a gate of this type may shut. If a type says nothing of it, it may.
    ghost may_shut: { Type 0 } = { Unit {0} };

    /// Whether a worker may make its next event. It is called before each event of the worker, and may keep it waiting; no lock is
    /// held then. The workers are numbered from 0 on, and `step` counts the calls of this worker, from 0 on; it stays at 2^64 - 1
    /// once it is there. `done` is how many rows are done, as the worker's seat then sees the board.
    fn pass(&self, worker: u32, step: u64, done: u64) -> bool
        ensures { result ≡ false → may_shut };
}
