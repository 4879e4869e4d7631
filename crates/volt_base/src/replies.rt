//! The last reply to each client.

ghost use Rattle.std.specs.Prelude.{◌≡◌, OnOk};
ghost use Rattle.volt_base.specs.Replies.{with_reply};

use crate::entry::LastReply;
use std::alloc::AllocError;

/// Puts a reply among the last ones, which rise by client: of each client that to its greatest call
/// stays.
pub fn keep_reply(replies: &mut Vec<LastReply>, reply: LastReply) -> Result<(), AllocError>
    ensures { OnOk result (replies.new.items ≡ with_reply reply replies.old.items) }
{
    for at in 0..replies.len() {
        if replies[at].client == reply.client {
            if replies[at].call < reply.call {
                replies[at] = reply;
            }
            return Ok(());
        }
        if reply.client < replies[at].client {
            replies.insert(at, reply)?;
            return Ok(());
        }
    }
    replies.push(reply)?;
    Ok(())
}
