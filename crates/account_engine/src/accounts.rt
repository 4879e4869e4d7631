//! The engine.

ghost use Rattle.std.specs.Prelude.{◌≡◌, ◌++◌, [], ◌∷◌, true, OnOk, IfOk};
ghost use Rattle.volt_base.specs.Replies.{replied};
ghost use Rattle.account_engine.specs.Accounts as spec;
ghost use Rattle.account_engine.specs.Spelling.{reply_bytes};
ghost use Rattle.account_engine.specs.Answers.{end_of_answer};
ghost use Rattle.volt_report.specs.Spelling.{table_line};

use crate::call::AccountCall;
use crate::reply::Answer;
use itoa::Buffer;
use std::alloc::{AllocError, Global};
use std::collections::BTreeMap;
use std::marker::Model;
use volt_base::{
    Applied, Bytes, CallNo, ClientNo, Engine, Entry, LastReply, MakeEngine, PartNo, Stamp,
    keep_reply,
};

/// The code of the fault of a key that is there already.
const DUPLICATE: u8 = 7;

/// One copy of the table, the calls that it has applied, and the last reply to each client.
#[derive(Drop)]
pub struct Accounts {
    rows: BTreeMap<i64, i64>,
    applied: Vec<Applied>,
    replies: Vec<LastReply>,
}

impl Model for Accounts {
    ghost use Rattle.account_engine.specs.Accounts.{AccountsState};

    ghost Value = { AccountsState };

    ghost view = { λ a. record { rows = a.rows.entries; applied = a.applied.items; replies = a.replies.items } };
}

impl Accounts {
    /// A table with no rows.
    pub fn new(alloc: Global) -> Accounts
        ensures { result ≡ record { rows = []; applied = []; replies = [] } }
    {
        Accounts {
            rows: BTreeMap::new(alloc),
            applied: Vec::new(alloc),
            replies: Vec::new(alloc),
        }
    }

    /// Does to the rows what a call means.
    fn run(&mut self, call: &AccountCall) -> Result<Answer, AllocError>
        ensures rows { OnOk result (self.new.rows ≡ spec.rows_after self.old.rows call.now) }
        ensures applied { self.new.applied ≡ self.old.applied }
        ensures replies { self.new.replies ≡ self.old.replies }
        ensures answer { IfOk result (λ answer. end_of_answer answer ≡ spec.reply self.old.rows call.now) }
    {
        match call {
            AccountCall::Put { id, balance } => {
                if self.rows.contains_key(id) {
                    return Ok(Answer::Fault(DUPLICATE));
                }
                self.rows.insert(*id, *balance)?;
                Ok(Answer::Integer(1))
            }
            AccountCall::Get { id } => match self.rows.get(id) {
                Some(balance) => Ok(Answer::Integer(*balance)),
                None => Ok(Answer::Nothing),
            },
        }
    }
}

impl Accounts {
    /// Notes the reply to a client's call. Client 0 is none.
    fn keep(
        &mut self,
        alloc: Global,
        client: ClientNo,
        call: CallNo,
        reply: &Bytes,
    ) -> Result<(), AllocError>
        ensures rows { self.new.rows ≡ self.old.rows }
        ensures applied { self.new.applied ≡ self.old.applied }
        ensures replies { OnOk result (self.new.replies ≡ replied client call reply.now self.old.replies) }
    {
        if client == 0 {
            return Ok(());
        }
        let reply = reply.copy(alloc)?;
        keep_reply(
            &mut self.replies,
            LastReply {
                client,
                call,
                reply,
            },
        )
    }

    /// Applies a client's call at its point, and answers its reply.
    fn apply_call(
        &mut self,
        alloc: Global,
        number: CallNo,
        client: ClientNo,
        point: Stamp,
        call: &AccountCall,
    ) -> Result<Bytes, AllocError>
        ensures state { OnOk result
            (self.new ≡ record {
              rows = spec.rows_after self.old.rows call.now;
              applied = self.old.applied ++ record { call = number; point = point } ∷ [];
              replies = replied client number (reply_bytes (spec.reply self.old.rows call.now)) self.old.replies;
            }) }
        ensures reply { IfOk result (λ reply. reply ≡ reply_bytes (spec.reply self.old.rows call.now)) }
    {
        let answer = self.run(call)?;
        self.applied.push(Applied {
            call: number,
            point,
        })?;
        let reply = answer.encode(alloc)?;
        self.keep(alloc, client, number, &reply)?;
        Ok(reply)
    }
}

impl Engine for Accounts {
    ghost use Rattle.account_engine.specs.Accounts.{accounts_semantics};

    ghost meaning = { accounts_semantics };

    ghost state = { λ a. a };

    fn fits(&self, _alloc: Global, entry: &Entry) -> Result<bool, AllocError> {
        Ok(match entry {
            Entry::Sp { body, .. } => AccountCall::decode(body.as_slice()).is_some(),
            Entry::Frag { .. } | Entry::Done { .. } => false,
        })
    }

    fn apply(&mut self, alloc: Global, entry: &Entry) -> Result<Bytes, AllocError> {
        match entry {
            Entry::Sp {
                call,
                client,
                point,
                body,
            } => match AccountCall::decode(body.as_slice()) {
                Some(asked) => self.apply_call(alloc, *call, *client, *point, &asked),
                None => unreachable!(),
            },
            Entry::Frag { .. } | Entry::Done { .. } => unreachable!(),
        }
    }

    fn dump(&self, alloc: Global) -> Result<Bytes, AllocError> {
        let mut text = Vec::new(alloc);
        for (id, balance) in &self.rows {
            push_line(&mut text, *id, *balance)?;
        }
        Ok(Bytes::from_vec(text))
    }

    fn applied(&self) -> &[Applied] {
        self.applied.as_slice()
    }

    fn replies(&self) -> &[LastReply] {
        self.replies.as_slice()
    }
}

/// Appends the line of a row.
fn push_line(text: &mut Vec<u8>, id: i64, balance: i64) -> Result<(), AllocError>
    ensures { OnOk result
        (text.new.items ≡ text.old.items ++ table_line (spec.line_of_row (id, balance))) }
{
    let mut number = Buffer::new();
    text.extend_from_slice(b" acct ")?;
    text.extend_from_slice(number.format(id).as_bytes())?;
    text.push(b' ')?;
    text.extend_from_slice(number.format(balance).as_bytes())?;
    text.push(b'\n')?;
    Ok(())
}

/// Makes engines of accounts.
#[derive(Clone, Copy, Debug)]
pub struct AccountMaker;

impl MakeEngine for AccountMaker {
    type E = Accounts;

    fn make(&self, alloc: Global, _part: PartNo) -> Result<Accounts, AllocError> {
        Ok(Accounts::new(alloc))
    }
}
