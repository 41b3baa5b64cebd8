//! From a line to its command.
ghost use Rattle.std.specs.Prelude.{◌≡◌, ◌↔◌, ◌∷◌, [], Some};
ghost use Rattle.std.specs.Option.{option_map};
ghost use Rattle.script_lines.specs.Orders.{Order, order_of, step_of};
ghost use Rattle.script_lines.specs.Grammar.{Asks};
ghost use Rattle.script_lines.specs.Cutting.{list_of};
ghost use Rattle.script_lines.specs.Reading.{order_in, one_word, two_words, three_words, four_words, five_words, field_in, action_in};

use crate::command::{Command, Step};
use crate::terms::{fill, name, number, spells, thread};
use crate::words::{Words, split_words};

/// What a line asks for, if it has a form.
pub fn parse(line: &[u8]) -> Option<Command<'_>>
    // A line is read as the one command whose form it has, and no line of no form is read.
    ensures { (order : Order) → (option_map order_of result ≡ Some order) ↔ Asks order line.now }
{
    command(split_words(line)?)
}

fn command(words: Words<'_>) -> Option<Command<'_>>
    ensures { option_map order_of result ≡ order_in (list_of words.entry) }
{
    match words {
        Words::One(first) => alone(first),
        Words::Two(first, second) => of_two(first, second),
        Words::Three(first, second, third) => of_three(first, second, third),
        Words::Four(first, second, third, fourth) => of_four(first, second, third, fourth),
        Words::Five(first, second, third, fourth, fifth) => {
            of_five(first, second, third, fourth, fifth)
        }
    }
}

fn alone(word: &[u8]) -> Option<Command<'_>>
    ensures { option_map order_of result ≡ one_word word.now }
{
    if spells(word, "log") {
        return Some(Command::Log);
    }
    if spells(word, "home") {
        return Some(Command::Home);
    }
    if spells(word, "settle") {
        return Some(Command::Settle);
    }
    if spells(word, "trim") {
        return Some(Command::Trim);
    }
    if spells(word, "heap") {
        return Some(Command::Heap);
    }
    if spells(word, "show") {
        return Some(Command::Show);
    }
    if spells(word, "recover") {
        return Some(Command::Recover);
    }
    if spells(word, "upgrade") {
        return Some(Command::Upgrade);
    }
    None
}

fn of_two<'a>(first: &'a [u8], second: &'a [u8]) -> Option<Command<'a>>
    ensures { option_map order_of result ≡ two_words first.now second.now }
{
    if spells(first, "object") {
        return Some(Command::Object {
            name: name(second)?,
        });
    }
    if spells(first, "crash") {
        return Some(Command::Crash {
            fill: fill(second)?,
            back: 0,
        });
    }
    if spells(second, "resume") {
        return Some(Command::Step {
            thread: thread(first)?,
            step: Step::Resume,
        });
    }
    None
}

fn of_three<'a>(first: &'a [u8], second: &'a [u8], third: &'a [u8]) -> Option<Command<'a>>
    ensures { option_map order_of result ≡ three_words first.now second.now third.now }
{
    if spells(first, "format") {
        return Some(Command::Format {
            lanes: number(second)?,
            capacity: number(third)?,
        });
    }
    Some(Command::Step {
        thread: thread(first)?,
        step: action(second, name(third)?)?,
    })
}

// What a thread does to the object or the field of this name.
fn action<'a>(word: &[u8], name: &'a str) -> Option<Step<'a>>
    ensures { option_map step_of result ≡ action_in word.now name.now }
{
    if spells(word, "enter") {
        return Some(Step::Enter(name));
    }
    if spells(word, "exit") {
        return Some(Step::Exit(name));
    }
    if spells(word, "load") {
        return Some(Step::Load(name));
    }
    if spells(word, "wait") {
        return Some(Step::Wait(name));
    }
    if spells(word, "notify") {
        return Some(Step::Notify(name));
    }
    if spells(word, "notifyall") {
        return Some(Step::NotifyAll(name));
    }
    None
}

fn of_four<'a>(
    first: &'a [u8],
    second: &'a [u8],
    third: &'a [u8],
    fourth: &'a [u8],
) -> Option<Command<'a>>
    ensures { option_map order_of result ≡ four_words first.now second.now third.now fourth.now }
{
    if spells(first, "crash") {
        if !spells(third, "back") {
            return None;
        }
        return Some(Command::Crash {
            fill: fill(second)?,
            back: number(fourth)?,
        });
    }
    if !spells(second, "store") {
        return None;
    }
    Some(Command::Step {
        thread: thread(first)?,
        step: Step::Store(name(third)?, number(fourth)?),
    })
}

fn of_five<'a>(
    first: &'a [u8],
    second: &'a [u8],
    third: &'a [u8],
    fourth: &'a [u8],
    fifth: &'a [u8],
) -> Option<Command<'a>>
    ensures { option_map order_of result ≡ five_words first.now second.now third.now fourth.now fifth.now }
{
    if spells(first, "field") {
        return field(second, third, fourth, fifth, false);
    }
    if spells(first, "transient") {
        return field(second, third, fourth, fifth, true);
    }
    None
}

// The declaration of a field, of the words behind the first one.
fn field<'a>(
    second: &'a [u8],
    third: &'a [u8],
    fourth: &'a [u8],
    fifth: &'a [u8],
    is_transient: bool,
) -> Option<Command<'a>>
    ensures { option_map order_of result ≡ field_in second.now third.now fourth.now fifth.now is_transient }
{
    Some(Command::Field {
        name: name(second)?,
        owner: name(third)?,
        guard: name(fourth)?,
        first: number(fifth)?,
        is_transient,
    })
}
