//! That what travels is read again.

ghost use Rattle.std.specs.Prelude.{◌≡◌, Some};
ghost use Rattle.sql_plan.specs.declared.reply.ProcReply.{ProcReply};
ghost use Rattle.sql_meaning.specs.Replies.{reply_bytes};
ghost use Rattle.sql_wire.specs.declared.answers.Answer.{Answer};
ghost use Rattle.sql_wire.specs.declared.bodies.CallBody.{CallBody};
ghost use Rattle.sql_wire.specs.declared.bodies.RoundBody.{RoundBody};
ghost use Rattle.sql_wire.specs.Bodies.{call_bytes, round_bytes};
ghost use Rattle.sql_wire.specs.Parts.{answer_bytes};
ghost use Rattle.sql_wire.specs.Spelled.{CallFits, RoundFits, ReplyFits, AnswerFits};
ghost use Rattle.sql_wire.specs.Whole.{call_of, round_of, reply_of, answer_of};

/// The bytes of a call, of a round, of a reply and of an answer are read as that again.
pub fn bytes_are_read_again()
    ensures calls { (call : CallBody) → CallFits call → call_of (call_bytes call) ≡ Some call }
    ensures rounds { (round : RoundBody) → RoundFits round → round_of (round_bytes round) ≡ Some round }
    ensures replies { (reply : ProcReply) → ReplyFits reply → reply_of (reply_bytes reply) ≡ Some reply }
    ensures answers { (answer : Answer) → AnswerFits answer → answer_of (answer_bytes answer) ≡ Some answer }
{}
