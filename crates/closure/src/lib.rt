#![tactic(auto)]

ghost use Rattle.std.specs.Prelude.{◌≡◌, ◌%◌, ◌^◌, ◌<◌, List, [], ◌∷◌, ◌++◌};
ghost use Rattle.logic.specs.declared.role.RoleAxiom.{RoleAxiom};
ghost use Rattle.logic.specs.declared.role.RoleAxiom.TheVariants.{Inclusion};
ghost use Rattle.closure.specs.Closure.{row_words, Square, cell, Exact, own_word, RowJoined, PairAdded};

use bits::bit;
use logic::role::inverse;

// The closure of the inclusions among any number of roles, in a table that the caller owns: row r
// has a bit for each role that r is below. The table is closed at all times, so that one pass over
// the rows puts in one pair more. Each function takes the table and the number of roles: the table
// is the caller's, of any size, so that a struct over both would be two, one that reads and one
// that writes.

// How many words a row has.
fn row_words(roles: usize) -> usize
    requires { roles < 2 ^ 32 }
    ensures { result ≡ row_words roles }
{
    roles.div_ceil(64)
}

// Word `k` of the row of a role that is below itself alone.
fn own_word(role: usize, k: usize) -> u64
    ensures { result ≡ own_word role k }
{
    if k == role / 64 { 1 << (role % 64) } else { 0 }
}

/// The closure of no inclusions. Every word is written, whatever the table held.
pub fn start(table: &mut [u64], roles: usize)
    requires square { Square table.old roles }
    requires few { roles < 2 ^ 32 }
    ensures { Exact table.new roles [] }
{
    let width = row_words(roles);
    // by index: of words written through an adapter of `iter_mut` nothing is known when the loop
    // ends
    for at in 0..table.len() {
        table[at] = own_word(at / width, at % width);
    }
}

/// Whether role `r` is below role `s`.
pub fn below(table: &[u64], roles: usize, r: usize, s: usize) -> bool
    requires square { Square table.now roles }
    requires first { r < roles }
    requires second { s < roles }
    requires few { roles < 2 ^ 32 }
    ensures { result ≡ cell table.now roles r s }
{
    let width = row_words(roles);
    bit(table[r * width + s / 64], s % 64)
}

// Row `i` takes over row `s`.
fn join_row(table: &mut [u64], roles: usize, i: usize, s: usize)
    requires square { Square table.old roles }
    requires first { i < roles }
    requires second { s < roles }
    requires few { roles < 2 ^ 32 }
    ensures { RowJoined table.old table.new roles i s }
{
    let width = row_words(roles);
    // by index: both rows lie in one slice, and may be the same
    for k in 0..width {
        table[i * width + k] |= table[s * width + k];
    }
}

// Puts the pair (r, s) into a closed table: what is below `r` gets below all that `s` is below. Row
// `s` needs no copy: if it is written at all, it takes over itself and stays as it was.
fn add_pair(table: &mut [u64], roles: usize, r: usize, s: usize)
    requires square { Square table.old roles }
    requires first { r < roles }
    requires second { s < roles }
    requires few { roles < 2 ^ 32 }
    ensures { PairAdded table.old table.new roles r s }
{
    // a range over the roles; nothing is indexed by it here
    for i in 0..roles {
        if below(table, roles, i, r) {
            join_row(table, roles, i, s);
        }
    }
}

/// One inclusion more: `r` below `s`, and so the inverse of `r` below the inverse of `s`.
pub fn include(table: &mut [u64], roles: usize, r: usize, s: usize)
    requires square { Square table.old roles }
    requires first { r < roles }
    requires second { s < roles }
    requires even { roles % 2 ≡ 0 }
    requires few { roles < 2 ^ 32 }
    ensures { (axioms : List RoleAxiom) → Exact table.old roles axioms
        → Exact table.new roles (axioms ++ (Inclusion r s ∷ [])) }
{
    add_pair(table, roles, r, s);
    add_pair(table, roles, inverse(r), inverse(s));
}
