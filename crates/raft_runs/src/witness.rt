//! Runs of allowed events, by computation: that the laws speak of something, what crashes, starts and
//! snapshots lead to, and which well-known sentences on Raft are false here.
//!
//! Each is the contract of a call that does nothing. A false sentence is a definition of its own
//! (`specs/Witness/Sentences`), and the law says that it fails in a group that allowed events lead to.

ghost use Rattle.std.specs.Prelude.{◌≡◌, [], ◌∷◌, ◌++◌, true, Some, slice_get};
ghost use Rattle.wire_types.specs.declared.envelope.Body.TheVariants as bodies;
ghost use Rattle.raft_model.specs.declared.note.Note.TheVariants as notes;
ghost use Rattle.raft_runs.specs.Followed as followed;
ghost use Rattle.raft_runs.specs.Minority as minority;
ghost use Rattle.raft_runs.specs.Repeated as repeated;
ghost use Rattle.raft_runs.specs.Deposed as deposed;
ghost use Rattle.raft_runs.specs.Lagging as lagging;
ghost use Rattle.raft_runs.specs.Crashed as crashed;
ghost use Rattle.raft_runs.specs.Installed as installed;
ghost use Rattle.raft_runs.specs.DrawnThree as drawn_three;
ghost use Rattle.raft_runs.specs.DrawnFive as drawn_five;
ghost use Rattle.raft_runs.specs.DrawnApart as drawn_apart;
ghost use Rattle.raft_runs.specs.Runs.{key, post};
ghost use Rattle.raft_model.specs.Replica.{ripe};
ghost use Rattle.raft_model.specs.Group.{replica_at, saved_at, run};
ghost use Rattle.raft_model.specs.Allowed.{are_allowed};
ghost use Rattle.raft_runs.specs.Witness.Groups.{three, five, after, log_at, terms};
ghost use Rattle.raft_runs.specs.Witness.Starts as starts;
ghost use Rattle.raft_runs.specs.Witness.Sentences.{LogsMatch, AnswersHold, TermsRise, TermsRiseFromFront, AnswersAreLed};
ghost use Rattle.raft_runs.specs.Witness.Sentences.{CommitsStay, TermsStay, LogsInTerm, VotesInTerm, MatchedReached, MatchedOwned, VotesStay};
ghost use Rattle.raft_runs.specs.Witness.Against as against;

/// The worked runs of the model are of allowed events, so the laws aren't empty, and hold of what each of
/// them shows.
///
/// Among them are elections, proposals and reads that are handed on, a leader that is deposed, one that
/// crashes, and a run with a compaction, a start, chunks that are repeated and turned around, and an
/// install. Source: this project's own.
pub fn worked_runs_are_allowed()
    ensures followed { are_allowed followed.begun followed.events_of ≡ true }
    ensures minority { are_allowed minority.begun minority.events_of ≡ true }
    ensures repeated { are_allowed repeated.begun repeated.events_of ≡ true }
    ensures deposed { are_allowed deposed.begun deposed.events_of ≡ true }
    ensures lagging { are_allowed lagging.begun lagging.events_of ≡ true }
    ensures crashed { are_allowed crashed.begun crashed.events_of ≡ true }
    ensures installed { are_allowed installed.begun installed.events_of ≡ true }
{}

/// So are the drawn schedules, of 300 and 400 events, which nobody made up to be allowed.
///
/// Envelopes arrive late, twice or never, hosts crash at any moment and start with and without the batch
/// that was being saved, and snapshots are sent and installed. Source: this project's own.
pub fn drawn_runs_are_allowed()
    ensures three { are_allowed drawn_three.begun drawn_three.events_of ≡ true }
    ensures five { are_allowed drawn_five.begun drawn_five.events_of ≡ true }
    ensures apart { are_allowed drawn_apart.begun drawn_apart.events_of ≡ true }
{}

/// A host that comes back counts again: a leader that crashed starts as a follower of the next one, and its
/// answer confirms a read with all three entries.
///
/// So the law on reads speaks of groups in which hosts have crashed and started. Source: this project's own.
pub fn start_confirms_a_read()
    ensures allowed { are_allowed crashed.begun (crashed.events_of ++ starts.returned) ≡ true }
    ensures notes { (run starts.returned (after crashed.events_of crashed.begun)).notes ≡ notes.Pending 1 1 ∷ notes.Confirmed 2 (key 2 1 2) 3 ∷ [] }
{}

/// A crash may leave the whole batch that was being saved, though nobody was told that it is saved.
///
/// Host 2 had saved no entry, starts with the leader's, and answers for it at once, so it is decided. A law
/// that allowed only what was known as saved would not speak of this host. Source: this project's own.
pub fn start_keeps_a_whole_batch()
    ensures allowed { are_allowed three (starts.half_saved ++ starts.kept_whole) ≡ true }
    ensures before { terms (saved_at (after starts.half_saved three) 2).entries ≡ [] }
    ensures kept { terms (log_at (after (starts.half_saved ++ starts.kept_whole) three) 2).entries ≡ 1 ∷ [] }
    ensures undecided { terms (after starts.half_saved three).decided ≡ [] }
    ensures decided { terms (after (starts.half_saved ++ starts.kept_whole) three).decided ≡ 1 ∷ [] }
{}

/// A snapshot takes the place of a log that holds another entry in the snapshot's last place: that entry
/// goes, the log begins at the snapshot, and the sender hears of it.
///
/// So a host may give up entries that it has saved without an Append that replaces them. Source: this
/// project's own.
pub fn install_resets_a_log()
    ensures allowed { are_allowed three (starts.overtaken ++ starts.installs) ≡ true }
    ensures before { terms (log_at (after starts.overtaken three) 1).entries ≡ 1 ∷ [] }
    ensures decided { terms (after starts.overtaken three).decided ≡ 2 ∷ [] }
    ensures now { log_at (after (starts.overtaken ++ starts.installs) three) 1 ≡ record { front = 1; front_term = 2; entries = [] } }
    ensures answer { slice_get (after (starts.overtaken ++ starts.installs) three).wire 14 ≡ Some (post 1 2 2 (bodies.SnapReply 1 2 true)) }
{}

/// A start with the mark of a snapshot that the saved log doesn't hold: the log gives way to the snapshot,
/// and the host knows its place as decided.
///
/// This is what a crash leaves where a snapshot was stored and the log that goes with it was not. Source:
/// this project's own.
pub fn mark_resets_a_saved_log()
    ensures allowed { are_allowed three (starts.overtaken ++ starts.starts_marked) ≡ true }
    ensures saved { terms (saved_at (after (starts.overtaken ++ starts.starts_marked) three) 1).entries ≡ 1 ∷ [] }
    ensures now { log_at (after (starts.overtaken ++ starts.starts_marked) three) 1 ≡ record { front = 1; front_term = 2; entries = [] } }
    ensures commit { (replica_at (after (starts.overtaken ++ starts.starts_marked) three) 1).commit ≡ 1 }
{}

/// A start with a machine that is further than the saved commit index: what the machine has applied is
/// decided, so the host begins with that commit index.
///
/// Entries are applied before the commit index that covers them is saved, so a crash may leave this.
/// Source: this project's own.
pub fn machine_raises_the_commit_index()
    ensures allowed { are_allowed three (starts.applied ++ starts.starts_applied) ≡ true }
    ensures saved { (saved_at (after (starts.applied ++ starts.starts_applied) three) 2).commit ≡ 0 }
    ensures commit { (replica_at (after (starts.applied ++ starts.starts_applied) three) 2).commit ≡ 1 }
{}

/// Log matching is false of the replicas' logs. It says: where two logs hold entries of the same index and
/// term, they hold the same entries up to there.
///
/// Host 2 and host 5, the leader of its term 2, hold the same entry in place 2 and different ones in
/// place 1. Host 2 knows its place 1 as decided, since its machine had applied it, so it passes over what
/// that leader, which has yet to hear of it, sends for that place. What holds in its stead: up to its
/// commit index each log holds the decided list (`one_list`). Source: this project's own.
pub fn logs_need_not_match()
    ensures allowed { are_allowed five (against.heard ++ against.unmatched) ≡ true }
    ensures applied { ripe (replica_at (after against.heard five) 2) ≡ 1 }
    ensures decided { terms (after (against.heard ++ against.unmatched) five).decided ≡ 1 ∷ 3 ∷ [] }
    ensures follower { terms (log_at (after (against.heard ++ against.unmatched) five) 2).entries ≡ 1 ∷ 2 ∷ [] }
    ensures leader { terms (log_at (after (against.heard ++ against.unmatched) five) 5).entries ≡ 2 ∷ 2 ∷ [] }
    ensures fails { LogsMatch (after (against.heard ++ against.unmatched) five) → ⊥ }
{}

/// An answer to an Append need not mean that its sender holds the leader's entries. The sentence that is
/// false: a host that answers the leader of its term, as having taken entries up to an index, holds what
/// the leader holds up to there.
///
/// In the group of `logs_need_not_match` host 2 answers for place 2 in term 2, and holds another entry than
/// the leader in place 1. It does no harm: what that leader lacks was decided in a later term, and a
/// majority is in that term, and answers it no more. Source: this project's own.
pub fn answers_need_not_hold()
    ensures allowed { are_allowed five (against.heard ++ against.unmatched ++ against.answered) ≡ true }
    ensures fails { AnswersHold (after (against.heard ++ against.unmatched ++ against.answered) five) → ⊥ }
{}

/// The terms in a log may fall. The sentence that is false: of two entries of a log the later one has at
/// least the term of the other.
///
/// Host 2 holds entries of terms 2, 1 and 3. The first is decided, and it knows so; the others are those of
/// the leader of term 3, which has yet to hear of it. So an entry's term doesn't bound those before it.
/// Source: this project's own.
pub fn terms_may_fall()
    ensures allowed { are_allowed five against.falling ≡ true }
    ensures log { terms (log_at (after against.falling five) 2).entries ≡ 2 ∷ 1 ∷ 3 ∷ [] }
    ensures fails { TermsRise (after against.falling five) → ⊥ }
{}

/// They may fall from a log's front on, too: a log that begins at a snapshot of a decided place takes entries
/// of older terms after it. Source: this project's own.
pub fn terms_may_fall_from_the_front()
    ensures allowed { are_allowed five against.falling_front ≡ true }
    ensures front { (log_at (after against.falling_front five) 2).front_term ≡ 2 }
    ensures log { terms (log_at (after against.falling_front five) 2).entries ≡ 1 ∷ [] }
    ensures fails { TermsRiseFromFront (after against.falling_front five) → ⊥ }
{}

/// A host may answer in a term that nobody leads. The sentence that is false: who answers that it has a
/// snapshot answers a leader, so that somebody has led the answer's term.
///
/// Host 1 leads term 1 and has sent host 2 a snapshot. Before host 2 has installed it, a candidate takes it to
/// term 2, so its answer is of term 2, which nobody leads yet. So what is proved of answers can't begin with
/// the leader that they answer. Source: this project's own.
pub fn answers_need_not_be_led()
    ensures allowed { are_allowed three against.unled ≡ true }
    ensures answer { slice_get (after against.unled three).wire 10 ≡ Some (post 2 1 2 (bodies.SnapReply 1 2 true)) }
    ensures fails { AnswersAreLed (run against.unled three) → ⊥ }
{}

/// A crash takes a host back to what it has saved. The sentences that are false: no host's commit index ever
/// falls, and no host's term does.
///
/// What never falls is the length of the decided list (`one_list`), which is no host's memory. Source: this
/// project's own.
pub fn crashes_take_back()
    ensures commit_allowed { are_allowed three (against.committed ++ against.forgets) ≡ true }
    ensures commit_fails { CommitsStay (after against.committed three) (after (against.committed ++ against.forgets) three) → ⊥ }
    ensures term_allowed { are_allowed three (against.stood ++ against.stands_back) ≡ true }
    ensures term_fails { TermsStay (after against.stood three) (after (against.stood ++ against.stands_back) three) → ⊥ }
{}

/// A log may end in a later term than its host's. The sentences that are false: no log ends in a term above
/// that of its host, and no candidate asks for votes with a log of a term above the one that it stands in.
///
/// Host 2 has installed a snapshot that ends in term 2 and has saved no term, so after a crash it is in
/// term 0, and it asks for votes in term 1 with a log that ends in term 2. Source: this project's own.
pub fn logs_may_end_in_later_terms()
    ensures allowed { are_allowed three against.above ≡ true }
    ensures fails { LogsInTerm (after against.above three) → ⊥ }
    ensures votes_fail { VotesInTerm (after against.above three) → ⊥ }
{}

/// A leader may have matched more of a host than that host's log holds. The sentence that is false: where
/// a host is in the term of a leader, what that leader has matched of it is within its log.
///
/// Host 2 had answered both entries of the leader of term 1, and then a snapshot of a later term took the
/// place of its log. Source: this project's own.
pub fn matched_need_not_be_reached()
    ensures allowed { are_allowed five against.matched ≡ true }
    ensures fails { MatchedReached (after against.matched five) → ⊥ }
{}

/// Nor need it be within the leader's own log. The sentence that is false: what a leader has matched of a host
/// is at most its own log's last index.
///
/// A host answers an Append for all that it knows as decided, where its log begins at a snapshot after the
/// places that it was sent. So a leader that sends on from what it has matched must see that its log
/// reaches there. Source: this project's own.
pub fn matched_need_not_be_owned()
    ensures allowed { are_allowed five against.overmatched ≡ true }
    ensures fails { MatchedOwned (after against.overmatched five) → ⊥ }
{}

/// A vote that was cast need not stay cast. The sentence that is false: within a term a host keeps its
/// vote.
///
/// Host 3 votes for itself, crashes before that is saved, and votes for host 1 in the same term. It does no
/// harm: nobody has heard of its first vote, since an envelope is held until what it promises is saved.
/// Source: this project's own.
pub fn votes_may_be_taken_back()
    ensures allowed { are_allowed three (against.voted ++ against.votes_again) ≡ true }
    ensures fails { VotesStay (after against.voted three) (after (against.voted ++ against.votes_again) three) → ⊥ }
{}
