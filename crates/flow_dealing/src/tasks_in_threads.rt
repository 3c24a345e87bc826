//! Tasks that run at once.
ghost use Rattle.std.specs.Prelude.{◌≡◌, ◌<◌, ℕ, IfOk, length, slice_index_or, All};
ghost use denote.Param.Send.{IsSend, IsSync};
ghost use Rattle.flow_dealing.specs.inner.Tasks.{HaveRun};

use std::alloc::AllocError;
use std::thread::{Threads, join};

/// What a thread does.
pub trait Task {
    /// When it may run.
    ghost can_run: { Self → Type 0 };

    /// What it becomes.
    ghost becomes: { Self → Self → Type 0 };

    fn run(self) -> Self
        requires { can_run self }
        ensures { becomes self result };
}

/// Runs each task in a thread of its own, or in this one where no thread can be made. This thread makes all of them, one after
/// the other, and then only waits: where threads make further ones, or it works itself, some may wait for its processor.
#[cycle(tasks)]
pub fn run_all<T: Task + Send + Drop, R: Threads + Sync>(
    rt: &R,
    mut tasks: Vec<T>,
) -> Result<Vec<T>, AllocError>
    requires { All T.can_run tasks.items }
    ensures count { IfOk result (λ v. length v.items ≡ length tasks.items) }
    ensures each { IfOk result (λ v. (i : ℕ) (d : _) (e : _) → i < length tasks.items
        → T.becomes (slice_index_or tasks.items i e) (slice_index_or v.items i d)) }
{
    let Some(last) = tasks.pop() else {
        return Ok(tasks);
    };
    let theirs = move || -> T
        requires { IsSend T.row × T.can_run last }
        ensures { T.becomes last result }
    { last.run() };
    let own = move || -> Result<Vec<T>, AllocError>
        requires { IsSync R.row × IsSend T.row × All T.can_run tasks.items }
        ensures { IfOk result (λ v. HaveRun T.becomes tasks.items v.items) }
    { run_all(rt, tasks) };
    let (done, before) = join(rt, theirs, own);
    let Ok(mut all) = before else {
        return Err(AllocError);
    };
    all.push(done)?;
    Ok(all)
}
