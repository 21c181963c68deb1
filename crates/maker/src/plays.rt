// Whole runs: a list of calls, carried out in order by one fresh maker.
ghost use Rattle.std.specs.Prelude.{◌≡◌, map, length, IfOk, IfErr};
ghost use Rattle.maker.specs.Law.{TapeOf, Conceals, Shows};
ghost use Rattle.maker.specs.Makers.{outcome_of, Leaves};
ghost use Rattle.maker.specs.Plays.{call_of, ReplyTo, Played};

use crate::{Closed, Maker, RowRefusal, SpoilRefusal, Tally};
use schemes::Scheme;
use std::alloc::Global;
use tapes::Tape;

// A call of a run, with the buffers that it is handed.
#[derive(Drop)]
pub enum Call {
    Row {
        secret: Vec<u8>,
        out: Vec<u8>,
        work: Vec<u8>,
    },
    Spoil,
    Tally,
}

// The answer to a call, with its buffers as they were left.
#[derive(Drop)]
pub enum Reply {
    Row {
        answer: Result<u32, RowRefusal>,
        secret: Vec<u8>,
        out: Vec<u8>,
        work: Vec<u8>,
    },
    Spoil(Result<u16, SpoilRefusal>),
    Tally(Tally),
}

// A run that was played: a reply to each call, and what closing answered if it was closed.
#[derive(Drop)]
pub struct RunLog {
    pub replies: Vec<Reply>,
    pub closed: Option<Closed>,
}

// A run that was not played, since there was no memory for its replies: everything as it was handed in.
#[derive(Drop)]
pub struct Unplayed<S, T> {
    pub scheme: S,
    pub tape: T,
    pub calls: Vec<Call>,
}

// Carries out one call.
fn perform<S: Scheme + Drop, T: Tape + Drop>(maker: &mut Maker<S, T>, call: Call) -> Reply
    ensures reply { ReplyTo (call_of call) (outcome_of S.means T.bytes maker.old (call_of call)) result }
    ensures leaves { Leaves S.means T.bytes maker.old maker.new (outcome_of S.means T.bytes maker.old (call_of call)) }
{
    match call {
        Call::Row {
            secret,
            mut out,
            mut work,
        } => {
            let answer = maker.row(&secret, &mut out, &mut work);
            Reply::Row {
                answer,
                secret,
                out,
                work,
            }
        }
        Call::Spoil => Reply::Spoil(maker.spoil()),
        Call::Tally => Reply::Tally(maker.tally()),
    }
}

// Plays a whole run: makes a maker, carries out every call in its order, and closes the run at its end if `closes` says so.
// It hands back every answer and every buffer. Where there is no memory for so many replies, no call is carried out.
pub fn play<S: Scheme + Drop, T: Tape + Drop>(
    heap: Global,
    scheme: S,
    tape: T,
    width: u32,
    height: u32,
    calls: Vec<Call>,
    closes: bool,
) -> Result<RunLog, Unplayed<S, T>>
    ensures plays { IfOk result (λ p. Played (S.means scheme) width height (T.bytes tape) (map call_of calls.items) closes p.replies.items p.closed) }
    ensures no_memory { IfErr result (λ u. (u.scheme ≡ scheme) × (u.tape ≡ tape) × (u.calls ≡ calls)) }
    ensures tape { TapeOf (length (T.bytes tape)) (T.bytes tape) }
    ensures conceals { Conceals (S.means scheme) width height }
    ensures shows { Shows (S.means scheme) width height }
{
    // `?` cannot hand the parts back.
    let Ok(mut replies) = Vec::with_capacity(heap, calls.len()) else {
        return Err(Unplayed {
            scheme,
            tape,
            calls,
        });
    };
    let mut maker = Maker::new(scheme, tape, width, height);
    for call in calls {
        replies.push_reserved(perform(&mut maker, call));
    }
    Ok(RunLog {
        replies,
        closed: closes.then(|| maker.close()),
    })
}
