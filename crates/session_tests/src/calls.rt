//! Calls of a session, so that a test may list them with their answers.

ghost use Rattle.session.specs.Sessions.{IsSessionOf};

use heap_model::{FieldId, ObjectId};
use monitor::Shared;
use session::{Session, SessionError};

/// A call of a session.
#[derive(Clone, Copy)]
pub enum Call {
    Enter(ObjectId),
    Exit(ObjectId),
    /// An enter, and an exit where that is Ok.
    Pass(ObjectId),
    Store(FieldId, u64),
    StoreTwo(FieldId, u64, FieldId, u64),
}

/// Nothing, or why the call is refused.
pub type Answer = Result<(), SessionError>;

/// A call, how often it is made, and the last answer.
pub type Row = (Call, u32, Answer);

/// Makes the call.
pub fn make(shared: &Shared, session: &mut Session, call: Call) -> Answer
    requires seat { IsSessionOf shared.now session.old }
    ensures seat { IsSessionOf shared.now session.new }
{
    match call {
        Call::Enter(object) => session.try_enter(shared, object),
        Call::Exit(object) => session.exit(shared, object),
        Call::Pass(object) => pass(shared, session, object),
        Call::Store(field, value) => session.store(shared, field, value),
        Call::StoreTwo(first, one, second, two) => {
            session.store_two(shared, first, one, second, two)
        }
    }
}

// Takes the object and gives it back.
fn pass(shared: &Shared, session: &mut Session, object: ObjectId) -> Answer
    requires seat { IsSessionOf shared.now session.old }
    ensures seat { IsSessionOf shared.now session.new }
{
    match session.try_enter(shared, object) {
        Ok(()) => session.exit(shared, object),
        Err(why) => Err(why),
    }
}

/// Makes the call so many times, or until it is refused.
pub fn make_often(shared: &Shared, session: &mut Session, call: Call, times: u32) -> Answer
    requires seat { IsSessionOf shared.now session.old }
    ensures seat { IsSessionOf shared.now session.new }
{
    for _ in 0..times {
        let answer = make(shared, session, call);
        if answer.is_err() {
            return answer;
        }
    }
    Ok(())
}

/// Makes the calls of each row. Returns whether they go as the rows say.
pub fn follow(shared: &Shared, session: &mut Session, rows: &[Row]) -> bool
    requires seat { IsSessionOf shared.now session.old }
    ensures seat { IsSessionOf shared.now session.new }
{
    let mut are_so = true;
    for (call, times, answer) in rows {
        are_so &= make_often(shared, session, *call, *times) == *answer;
    }
    are_so
}

/// The field's value, where the session may load it.
pub fn value_in(shared: &Shared, session: &mut Session, field: FieldId) -> Option<u64>
    requires seat { IsSessionOf shared.now session.old }
    ensures seat { IsSessionOf shared.now session.new }
{
    match session.load(shared, field) {
        Ok(value) => Some(value),
        Err(_) => None,
    }
}
