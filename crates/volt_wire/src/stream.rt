use std::boxed::Box;
use std::marker::Model;
use volt_base::{Applied, LastReply, Outcome, Pos, Term};

/// What a leader tells a joiner before it streams its tables: the position at which they are read
/// out, the mark of the base that is made of them, the calls applied by then, the last
/// multi-partition transaction that was done, and the last reply to each client.
#[derive(Debug, Drop)]
pub struct Stream {
    held: Box<HeldStream>,
}

#[derive(Debug, Drop)]
struct HeldStream {
    stream_start: Pos,
    mark: Term,
    applied: Vec<Applied>,
    last: Option<(u64, Outcome)>,
    replies: Vec<LastReply>,
}

impl Model for Stream {
    ghost use Rattle.volt_wire.specs.Stream.{StreamHead};

    ghost Value = { StreamHead };

    ghost view = { λ s. record {
      stream_start = s.held.value.stream_start;
      mark = s.held.value.mark;
      applied = s.held.value.applied.items;
      last = s.held.value.last;
      replies = s.held.value.replies.items;
    } };
}
