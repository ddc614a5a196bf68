//! Cells whose token goes from owner to owner: what one writes the next one reads.
ghost use Rattle.std.specs.Prelude.{◌≡◌};
ghost use base.Stored.{coded_ℕ};

use seize_content::{CellToken, TokenCell};

/// An owner of the token reads the value, writes another one, and passes the token on.
pub fn turn<M: Copy>(cell: &TokenCell<M>, token: CellToken, value: M) -> (M, CellToken)
    requires { token.name ≡ cell.now.name }
    ensures found { M.row.coded.code result.0 ≡ token.value }
    ensures token { (result.1.name ≡ cell.now.name) × (result.1.value ≡ M.row.coded.code value) }
{
    let mut token = token;
    let found = cell.get(&mut token);
    cell.set(&mut token, value);
    (found, token)
}

/// Two owners, one after the other. Each finds what was there before it, and the last value is there in the end.
pub fn two_owners<M: Copy>(first: M, second: M, third: M) -> (M, M, M)
    ensures first { M.row.coded.code result.0 ≡ M.row.coded.code first }
    ensures second { M.row.coded.code result.1 ≡ M.row.coded.code second }
    ensures third { M.row.coded.code result.2 ≡ M.row.coded.code third }
{
    let (cell, token) = TokenCell::new(first);
    let shared = &cell;
    let (one, token) = turn(shared, token, second);
    let (two, token) = turn(shared, token, third);
    let mut token = token;
    (one, two, shared.get(&mut token))
}

/// Two cells, each with its own token, which are changed in turn.
pub fn two_cells<M: Copy>(first: M, second: M) -> (M, M)
    ensures first { M.row.coded.code result.0 ≡ M.row.coded.code first }
    ensures second { M.row.coded.code result.1 ≡ M.row.coded.code second }
{
    let (one, mut token) = TokenCell::new(second);
    let (two, mut other) = TokenCell::new(first);
    let old = one.replace(&mut token, first);
    two.set(&mut other, old);
    (one.get(&mut token), two.get(&mut other))
}

/// A cell that lies in what threads share, beside what stays.
#[derive(Drop)]
pub struct Post {
    /// The number that stands on it.
    pub number: u64,
    /// What its owner of the moment keeps there.
    pub cell: TokenCell<u64>,
}

/// A post whose cell holds `kept`, and the cell's token.
pub fn new_post(number: u64, kept: u64) -> (Post, CellToken)
    ensures { (result.0.number ≡ number) × (result.1.name ≡ result.0.cell.name) × (result.1.value ≡ coded_ℕ.code kept) }
{
    let (cell, token) = TokenCell::new(kept);
    (Post { number, cell }, token)
}

/// Writes the post's number into its cell, and gives what lay there.
pub fn marked(post: &Post, token: &mut CellToken) -> u64
    requires { token.old.name ≡ post.now.cell.name }
    ensures found { coded_ℕ.code result ≡ token.old.value }
    ensures token { (token.new.name ≡ token.old.name) × (token.new.value ≡ coded_ℕ.code post.now.number) }
{
    let found = post.cell.get(token);
    post.cell.set(token, post.number);
    found
}

/// A post marked: its cell held what it began with, and has its number then.
pub fn marked_post(number: u64, kept: u64) -> (u64, u64)
    ensures { (result.0 ≡ kept) × (result.1 ≡ number) }
{
    let (post, mut token) = new_post(number, kept);
    let found = marked(&post, &mut token);
    (found, post.cell.get(&mut token))
}

/// Adds 1 so many times, modulo 2^64.
pub fn count(cell: &TokenCell<u64>, token: CellToken, times: u64) -> CellToken
    requires { token.name ≡ cell.now.name }
    ensures { result.name ≡ cell.now.name }
{
    let mut token = token;
    for _ in 0..times {
        let found = cell.get(&mut token);
        cell.set(&mut token, found.wrapping_add(1));
    }
    token
}
