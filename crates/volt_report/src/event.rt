//! The line of an event, made without memory.

ghost use Rattle.std.specs.Prelude.{◌≡◌, ◌+◌, ◌≤◌, ◌++◌, decimal, length};
ghost use Rattle.arrayvec.specs.ArrayString.{array_string_len};
ghost use Rattle.volt_report.specs.Spelling.{newline, actor_text, event_line};

use arrayvec::ArrayString;
use itoa::Buffer;
use volt_wire::{Actor, Event};

/// The line of an event. The longest is that of `deliver s255 s255`.
pub type EventLine = ArrayString<18>;

/// The line of an event.
pub fn event_line(event: Event) -> EventLine
    ensures { result.bytes ≡ event_line event }
{
    match event {
        Event::Deliver { to, from } => deliver_line(to, from),
        Event::Sync(slot) => line_of("sync ", Actor::Site(slot)),
        Event::Scan(slot) => line_of("scan ", Actor::Scanner(slot)),
        Event::Recover => word_line("recover\n"),
        Event::Item => word_line("item\n"),
        Event::Submit(client) => line_of("submit ", Actor::Client(client)),
        Event::Idle(actor) => line_of("idle ", actor),
    }
}

// The line of an event of which the receiver and the sender are told.
fn deliver_line(to: Actor, from: Actor) -> EventLine
    ensures { result.bytes ≡ event_line (Event.Deliver to from) }
{
    let mut line = EventLine::new();
    line.push_str("deliver ");
    put_actor(&mut line, to);
    line.push_str(" ");
    put_actor(&mut line, from);
    line.push_str("\n");
    line
}

// The line of an event of which no actor is told: a word with its end.
fn word_line(word: &str) -> EventLine
    requires { length word.now ≤ 18 }
    ensures { result.bytes ≡ word.now }
{
    let mut line = EventLine::new();
    line.push_str(word);
    line
}

// The line of an event of which one actor is told, behind a word that ends in a space.
fn line_of(word: &str, actor: Actor) -> EventLine
    requires { length word.now ≤ 13 }
    ensures { result.bytes ≡ word.now ++ actor_text actor ++ newline }
{
    let mut line = EventLine::new();
    line.push_str(word);
    put_actor(&mut line, actor);
    line.push_str("\n");
    line
}

// The longest names have a letter and three digits.
fn put_actor(line: &mut EventLine, actor: Actor)
    requires { array_string_len line.old + 4 ≤ 18 }
    ensures text { line.new.bytes ≡ line.old.bytes ++ actor_text actor }
    ensures short { array_string_len line.new ≤ array_string_len line.old + 4 }
{
    match actor {
        Actor::Director => line.push_str("d"),
        Actor::Client(client) => put_named(line, "c", client),
        Actor::Agent(host) => put_named(line, "h", host),
        Actor::Site(slot) => put_named(line, "s", slot),
        Actor::Scanner(slot) => put_named(line, "x", slot),
    }
}

// A letter and a number.
fn put_named(line: &mut EventLine, letter: &str, number: u8)
    requires one { length letter.now ≡ 1 }
    requires room { array_string_len line.old + 4 ≤ 18 }
    ensures text { line.new.bytes ≡ line.old.bytes ++ letter.now ++ decimal number }
    ensures short { array_string_len line.new ≤ array_string_len line.old + 4 }
{
    let mut buffer = Buffer::new();
    line.push_str(letter);
    line.push_str(buffer.format(number));
}
