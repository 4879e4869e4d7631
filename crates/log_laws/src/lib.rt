//! Laws of the logs of a partition: what its leader, its other copies and its joiners have. They hold of
//! every world that is reached by any input, in any environment and over any database. Each is a function
//! without a body; the clause is the law. Begin with `PROOF.md`.
#![tactic(auto)]

ghost use Rattle.std.specs.Prelude.{ℕ, ◌≤◌, ◌⊎◌, length, take};
ghost use Rattle.cluster_model.specs.World.{World, Input};
ghost use Rattle.cluster_model.specs.Runs.{Reached, RunsInEpoch};
ghost use Rattle.cluster_steps.specs.Lists.{Prefix};
ghost use Rattle.log_laws.specs.Copies.{OfOneTerm, AreCopies, Leads, HasLoaded, Follows, LeadsNext, KeepsFirm, IsInAuthoritative, HasLogs, log_of};

use cluster_model::laws::AnyDatabase;

/// Of two copies of a partition in one term of which one leads, the other's log is a prefix of the
/// leader's.
pub fn copies_follow_their_leader<B: AnyDatabase>()
    ensures { (input : Input) (w : World) (c l : ℕ) → Reached B.database input w
        → AreCopies w c l → Leads w l → Prefix (log_of w c) (log_of w l) }
{}

/// All that a copy counts firm, as a leader does, is in the log of each copy of its partition in its term.
pub fn firm_entries_are_everywhere<B: AnyDatabase>()
    ensures { (input : Input) (w : World) (c d : ℕ) → Reached B.database input w
        → AreCopies w c d → (w.sites d).firm ≤ length (log_of w c) }
{}

/// Of any two copies of a partition in one term, led or not, the log of one is a prefix of the other's.
pub fn copies_are_comparable<B: AnyDatabase>()
    ensures { (input : Input) (w : World) (c d : ℕ) → Reached B.database input w
        → AreCopies w c d → Prefix (log_of w c) (log_of w d) ⊎ Prefix (log_of w d) (log_of w c) }
{}

/// A joiner that has loaded its tables has a prefix of the log of the leader of its partition, if that
/// leads in the term of the joiner's word. All that the leader counts firm is in it.
pub fn a_loaded_joiner_follows<B: AnyDatabase>()
    ensures { (input : Input) (w : World) (c l : ℕ) → Reached B.database input w
        → HasLoaded w c → Leads w l → OfOneTerm w c l → Follows w c l }
{}

/// What leaders of a partition counted firm is never lost: from one recovery that works to the next, the
/// entries that are firm in the partition's authoritative log, which the world keeps, are firm in that of
/// each later world, and a prefix of its log, whatever leaders come, stale ones too. No more are firm than
/// are in the log.
pub fn firm_entries_are_never_lost<B: AnyDatabase>()
    ensures { (input : Input) (v w : World) (p : ℕ)
        → Reached B.database input v → RunsInEpoch B.database v w → KeepsFirm v w p }
{}

/// What a leader counted firm is a prefix of the log of each later leader: in a later world from one
/// recovery that works to the next, of each site of the partition that leads there in a term that isn't
/// lower.
pub fn later_leaders_have_what_was_firm<B: AnyDatabase>()
    ensures { (input : Input) (v w : World) (l m : ℕ)
        → Reached B.database input v → RunsInEpoch B.database v w
        → LeadsNext v w l m → Prefix (take (v.sites l).firm (log_of v l)) (log_of w m) }
{}

/// A leader in the term of its partition's authoritative log has that log. Whatever the term in which a
/// site leads, be it a stale one: that of the authoritative log is no lower, and the entries that the site
/// counts firm are firm in the authoritative log, and a prefix of it.
pub fn leaders_agree_with_the_authoritative_log<B: AnyDatabase>()
    ensures { (input : Input) (w : World) (l : ℕ) → Reached B.database input w
        → Leads w l → IsInAuthoritative w l }
{}

/// Each world has a history of its words and logs since the last recovery that worked, and all holds of
/// it that laws on entries and disks ask of logs: with what each start entered each term, and the log with
/// which a leader began it; what is under way to each copy and joiner; that all that was counted firm is
/// in the log of each that takes part; and the rest of `LogsHold`. It says of the authoritative log of a
/// partition what `AuthoritativeOk` says.
pub fn logs_have_a_history<B: AnyDatabase>()
    ensures { (input : Input) (w : World) → Reached B.database input w → HasLogs w }
{}
