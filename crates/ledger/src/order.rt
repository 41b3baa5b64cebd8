//! What a request asks for.
ghost use Rattle.std.specs.Prelude.{ℕ, ◌≡◌, ◌<◌, ◌^◌, ◌++◌, ◌∷◌, List, IfOk, IfSome, MatchOption, Some, decimal};
ghost use Rattle.ledger.specs.Orders.{IsInRange, spelled};

use std::alloc::{AllocError, Global};

/// A transfer that a request asks for.
#[derive(Clone, Copy, Debug, Drop, PartialEq, Eq)]
pub struct Order {
    pub from: u32,
    pub to: u32,
    pub amount: u64,
}

/// The order that a path spells. A number has no needless zeros, so that each order has one path.
pub fn order_of(alloc: Global, path: &str) -> Result<Option<Order>, AllocError>
    // A path is taken for an order only where it spells just that order.
    ensures only { IfOk result (λ found. IfSome found (λ order. path.now ≡ spelled order)) }
    // Each path that spells an order is taken for it.
    ensures each { IfOk result (λ found. (order : Order) → IsInRange order → path.now ≡ spelled order → found ≡ Some order) }
{
    let Some(order) = read(path) else {
        return Ok(None);
    };
    let text = format!(in alloc; "/transfer/{}/{}/{}", order.from, order.to, order.amount)?;
    if text.as_str() == path {
        return Ok(Some(order));
    }
    Ok(None)
}

// The numbers that stand there.
fn read(path: &str) -> Option<Order>
    ensures { (order : Order) → IsInRange order → path.now ≡ spelled order → result ≡ Some order }
{
    let words = path.strip_prefix("/transfer/")?;
    let (from, words) = account_in(words)?;
    let (to, words) = account_in(words)?;
    let amount = words.parse().ok()?;
    Some(Order { from, to, amount })
}

// The number of an account that stands before the first slash, and what follows the slash.
fn account_in(words: &str) -> Option<(u32, &str)>
    ensures { (n : ℕ) (rest : List ℕ) → n < 2 ^ 32 → words.now ≡ decimal n ++ 47 ∷ rest
        → MatchOption result ⊥ (λ found. (found.0 ≡ n) × (found.1.now ≡ rest)) }
{
    let (number, words) = words.split_once('/')?;
    Some((number.parse().ok()?, words))
}
