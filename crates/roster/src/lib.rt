//! The voters of a group, tables by host, and majorities.
//!
//! The definitions stand in `specs`: a seat, tables with a place for each number of a host, and a
//! majority of the voters.
#![tactic(auto)]

ghost use Rattle.std.specs.Prelude.{◌≡◌, ◌≤◌, ℕ, length, nat_le};
ghost use Rattle.std.specs.List.{All};
ghost use Rattle.roster.specs.Roster.{at, is_set, is_majority};

/// Whether a majority of the voters is in the set. `voters` are hosts, each at most 9, and at most 7 of
/// them. It takes no memory. Source: dissertation section 3.4.
pub fn has_majority(voters: &[u8], set: &[bool; 10]) -> bool
    requires few { length voters.now ≤ 7 }
    requires hosts { All (λ v. v ≤ 9) voters.now }
    ensures { result ≡ is_majority voters.now (is_set set.now) }
{
    let mut number = 0;
    for voter in voters {
        if set[*voter as usize] {
            number += 1;
        }
    }
    voters.len() < 2 * number
}

/// Which places of the table have a number of at least `least`.
fn reached_by(table: &[u64; 10], least: u64) -> [bool; 10]
    ensures { (v : ℕ) → v ≤ 9 → is_set result v ≡ nat_le least (at table.now v) }
{
    let mut set = [false; 10];
    for place in 0..10 {
        set[place] = least <= table[place];
    }
    set
}

/// Whether a majority of the voters has a number of at least `least` in the table. `voters` are hosts,
/// each at most 9, and at most 7 of them. It takes no memory. Source: dissertation section 3.5.
#[tactic(auto, using(crate::proofs::Majority::same_majority))]
pub fn has_reached(voters: &[u8], table: &[u64; 10], least: u64) -> bool
    requires few { length voters.now ≤ 7 }
    requires hosts { All (λ v. v ≤ 9) voters.now }
    ensures { result ≡ is_majority voters.now (λ v. nat_le least (at table.now v)) }
{
    has_majority(voters, &reached_by(table, least))
}
