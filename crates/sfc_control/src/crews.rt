//! Workers in threads of their own.

ghost use Rattle.std.specs.Prelude.{◌≡◌, IfOk, length, [], ◌∷◌, ◌++◌};
ghost use Rattle.std.specs.Thread.{IsSync};
ghost use Rattle.sfc_control.specs.Manning.{IsEndFor, AreEndsFor};

use crate::clock::Clock;
use crate::controller::Controller;
use crate::gate::Gate;
use crate::opened_with::OpenedWith;
use crate::post::{EndOf, Post};
use crate::work::{WorkerEnd, worker};
use std::alloc::{AllocError, Global};
use std::snapshot::Snapshot;
use std::sync::Wait;
use std::sync::ledger::Ledger;
use std::thread;
use std::thread::Threads;

// The worker of a post.
fn manned<L: OpenedWith, R: Wait, G: Gate + Drop, C: Clock + Drop>(
    rt: &R,
    alloc: Global,
    controller: &Controller<L>,
    post: Post<L, G, C>,
) -> WorkerEnd<L>
    ensures { IsEndFor post result }
{
    let Post {
        task,
        seat,
        mut gate,
        mut clock,
    } = post;
    worker(rt, alloc, task, seat, controller, &mut gate, &mut clock)
}

// What the end of the post's worker has to be.
fn promise_of<L: Ledger, G: Gate, C: Clock>(post: &Post<L, G, C>) -> EndOf<L>
    ensures task { result.task ≡ post.now.task }
    ensures seat { result.seat.value ≡ post.now.seat }
{
    EndOf {
        task: post.task,
        seat: Snapshot::of(&post.seat),
    }
}

// Starts a thread for the last post, does the rest, and then joins.
fn crew_of<
    L: OpenedWith + Send + Sync,
    R: Threads + Wait + Sync,
    G: Gate + Drop + Send,
    C: Clock + Drop + Send,
>(
    rt: &R,
    alloc: Global,
    controller: &Controller<L>,
    posts: Vec<Post<L, G, C>>,
    room: usize,
) -> Result<Vec<WorkerEnd<L>>, AllocError>
    ensures { IfOk result (λ ends. AreEndsFor posts.items ends.items) }
{
    let mut posts = posts;
    let Some(post) = posts.pop() else {
        return Vec::with_capacity(alloc, room);
    };
    thread::scope(
        thread::scope_env(),
        rt,
        |scope| -> Result<Vec<WorkerEnd<L>>, AllocError>
            requires { IsSync R.row }
            ensures { IfOk result (λ ends. AreEndsFor (posts.items ++ post ∷ []) ends.items) }
        {
            let promise = promise_of(&post);
            let job = move || -> WorkerEnd<L>
                ensures { IsEndFor post result }
            { manned(rt, alloc, controller, post) };
            let child = scope.spawn_with(promise, job)?;
            let mut ends = crew_of(rt, alloc, controller, posts, room)?;
            let end = child.join(rt);
            ends.push(end)?;
            Ok(ends)
        },
    )
}

/// A worker for each post, in a thread of its own, all of which are joined. The ends stand in the posts' order. The one error is that
/// memory or a thread was refused: the workers that were started are joined, and the seats are given up.
pub fn crew<
    L: OpenedWith + Send + Sync,
    R: Threads + Wait + Sync,
    G: Gate + Drop + Send,
    C: Clock + Drop + Send,
>(
    rt: &R,
    alloc: Global,
    controller: &Controller<L>,
    posts: Vec<Post<L, G, C>>,
) -> Result<Vec<WorkerEnd<L>>, AllocError>
    ensures { IfOk result (λ ends. AreEndsFor posts.items ends.items) }
{
    let room = posts.len();
    crew_of(rt, alloc, controller, posts, room)
}
