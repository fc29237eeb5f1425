//! What the words after the program's name ask for.
ghost use Rattle.std.specs.Prelude.{◌≡◌, map, string_bytes};
ghost use Rattle.fx_command.specs.Call.{workers_among, telling_among};

use crate::files::STANDARD_INPUT;
use crate::states::{MOST_STATES, states_in};
use crate::workers::workers_in;

/// What is done with a script.
#[derive(Clone, Copy, PartialEq, Eq, Debug)]
pub(crate) enum Command {
    /// Its fibers and queues are counted.
    Check,
    /// It is replayed, and the report is written.
    Replay,
    /// It is replayed, and the traces are written.
    Trace,
    /// It is replayed, and each step is told.
    Steps,
    /// Its fibers are run by so many workers, and the report is written.
    Run(u32),
    /// Its fibers are run by so many workers, and the traces are written.
    Record(u32),
    /// It is replayed, and the run is drawn.
    Picture,
    /// Its fibers are run by so many workers, and the run is drawn.
    PictureRun(u32),
    /// Each report of its runs is sought.
    Explore(Search),
    /// So it is, and what was found is compared with what is expected.
    Expect(Search),
}

/// Which reports are sought.
#[derive(Clone, Copy, PartialEq, Eq, Debug)]
pub(crate) struct Search {
    /// The search goes on from at most so many states.
    pub(crate) most: u32,
    /// The fiber that may be requested from outside, if one may.
    pub(crate) target: Option<u32>,
    /// Whether it tells how far it has come.
    pub(crate) telling: Telling,
}

/// Whether a search tells how far it has come.
#[derive(Clone, Copy, PartialEq, Eq, Debug)]
pub(crate) enum Telling {
    /// It tells nothing until it ends.
    Silent,
    /// It tells that as it goes on.
    Aloud,
}

/// A call of the program.
#[derive(Clone, Copy, PartialEq, Eq, Debug)]
pub(crate) struct Call<'a> {
    pub(crate) command: Command,
    /// The name of the script's text.
    pub(crate) script: &'a str,
    /// That of the schedule's, which is empty where there is none.
    pub(crate) schedule: Option<&'a str>,
    /// That of the text which says what reports are expected, if there is one.
    pub(crate) expected: Option<&'a str>,
}

/// The number of workers that the second of two words asks for.
fn workers_among(names: &[String]) -> Option<u32>
    ensures { result ≡ workers_among (map string_bytes names.now) }
{
    match names {
        [_, workers] => workers_in(workers.as_str()),
        _ => None,
    }
}

/// Whether a search tells how far it has come, by the words at the end: one word asks for that.
fn telling_among(words: &[String]) -> Option<Telling>
    ensures { result ≡ telling_among (map string_bytes words.now) }
{
    match words {
        [] => Some(Telling::Silent),
        [word] if word.as_str() == "progress" => Some(Telling::Aloud),
        _ => None,
    }
}

impl<'a> Call<'a> {
    ghost use Rattle.std.specs.Prelude.{◌≡◌, ◌≢◌, IfSome, codes, map, option_map, string_bytes};
    ghost use Rattle.fx_command.specs.Call.{view_call, call_with_script, call_with_names};
    ghost use Rattle.fx_command.specs.Call.{call_by_workers, call_expecting, call_canceling};
    ghost use Rattle.fx_command.specs.Call.{call_searching, call_to_explore, call_of};

    /// The call that these words make, if they make one.
    pub(crate) fn of(words: &'a [String]) -> Option<Call<'a>>
        ensures call { option_map view_call result ≡ call_of (map string_bytes words.now) }
        ensures file { IfSome result
            (λ call. IfSome call.schedule (λ name. name.now ≢ codes "-")) }
        ensures expected { IfSome result
            (λ call. IfSome call.expected (λ name. name.now ≢ codes "-")) }
    {
        let [word, names @ ..] = words else {
            return Some(Call {
                command: Command::Replay,
                script: STANDARD_INPUT,
                schedule: None,
                expected: None,
            });
        };
        match word.as_str() {
            "check" => Call::with_script(Command::Check, names),
            "replay" => Call::with_names(Command::Replay, names),
            "trace" => Call::with_names(Command::Trace, names),
            "steps" => Call::with_names(Command::Steps, names),
            "run" => Call::by_workers(Command::Run(workers_among(names)?), names),
            "record" => Call::by_workers(Command::Record(workers_among(names)?), names),
            "picture" => Call::with_names(Command::Picture, names),
            "picture-run" => Call::by_workers(Command::PictureRun(workers_among(names)?), names),
            "explore" => Call::to_explore(names),
            _ => None,
        }
    }

    /// The call for a script of this name.
    fn with_script(command: Command, names: &'a [String]) -> Option<Call<'a>>
        ensures call { option_map view_call result
            ≡ call_with_script command (map string_bytes names.now) }
        ensures file { IfSome result
            (λ call. IfSome call.schedule (λ name. name.now ≢ codes "-")) }
        ensures expected { IfSome result
            (λ call. IfSome call.expected (λ name. name.now ≢ codes "-")) }
    {
        match names {
            [script] => Some(Call {
                command,
                script: script.as_str(),
                schedule: None,
                expected: None,
            }),
            _ => None,
        }
    }

    /// The call for a script of this name, and a schedule if there is a second name. That is a file.
    fn with_names(command: Command, names: &'a [String]) -> Option<Call<'a>>
        ensures call { option_map view_call result
            ≡ call_with_names command (map string_bytes names.now) }
        ensures file { IfSome result
            (λ call. IfSome call.schedule (λ name. name.now ≢ codes "-")) }
        ensures expected { IfSome result
            (λ call. IfSome call.expected (λ name. name.now ≢ codes "-")) }
    {
        match names {
            [script, schedule] if schedule.as_str() != STANDARD_INPUT => Some(Call {
                command,
                script: script.as_str(),
                schedule: Some(schedule.as_str()),
                expected: None,
            }),
            _ => Call::with_script(command, names),
        }
    }

    /// The call for a script of this name, which has a second word for the workers.
    fn by_workers(command: Command, names: &'a [String]) -> Option<Call<'a>>
        ensures call { option_map view_call result
            ≡ call_by_workers command (map string_bytes names.now) }
        ensures file { IfSome result
            (λ call. IfSome call.schedule (λ name. name.now ≢ codes "-")) }
        ensures expected { IfSome result
            (λ call. IfSome call.expected (λ name. name.now ≢ codes "-")) }
    {
        match names {
            [script, _] => Some(Call {
                command,
                script: script.as_str(),
                schedule: None,
                expected: None,
            }),
            _ => None,
        }
    }

    /// The call for a search of the script of this name, from at most so many states and with this target, where a
    /// word may come before the name of what is expected, which is a file, and at the end one that asks to be told
    /// how far the search has come.
    fn expecting(
        script: &'a str,
        most: u32,
        target: Option<u32>,
        words: &'a [String],
    ) -> Option<Call<'a>>
        ensures call { option_map view_call result
            ≡ call_expecting script.now most target (map string_bytes words.now) }
        ensures file { IfSome result
            (λ call. IfSome call.schedule (λ name. name.now ≢ codes "-")) }
        ensures expected { IfSome result
            (λ call. IfSome call.expected (λ name. name.now ≢ codes "-")) }
    {
        match words {
            [word, file, rest @ ..]
                if word.as_str() == "expect" && file.as_str() != STANDARD_INPUT => {
                let telling = telling_among(rest)?;
                Some(Call {
                    command: Command::Expect(Search {
                        most,
                        target,
                        telling,
                    }),
                    script,
                    schedule: None,
                    expected: Some(file.as_str()),
                })
            }
            _ => {
                let telling = telling_among(words)?;
                Some(Call {
                    command: Command::Explore(Search {
                        most,
                        target,
                        telling,
                    }),
                    script,
                    schedule: None,
                    expected: None,
                })
            }
        }
    }

    /// The call for a search of the script of this name from at most so many states, where a word may come before
    /// the number of the fiber that is requested.
    fn canceling(script: &'a str, most: u32, words: &'a [String]) -> Option<Call<'a>>
        ensures call { option_map view_call result
            ≡ call_canceling script.now most (map string_bytes words.now) }
        ensures file { IfSome result
            (λ call. IfSome call.schedule (λ name. name.now ≢ codes "-")) }
        ensures expected { IfSome result
            (λ call. IfSome call.expected (λ name. name.now ≢ codes "-")) }
    {
        match words {
            [word, fiber, rest @ ..] if word.as_str() == "cancel" => {
                let target = Some(workers_in(fiber.as_str())?);
                Call::expecting(script, most, target, rest)
            }
            _ => Call::expecting(script, most, None, words),
        }
    }

    /// The call for a search of the script of this name, where a number of states may come first.
    fn searching(script: &'a str, words: &'a [String]) -> Option<Call<'a>>
        ensures call { option_map view_call result
            ≡ call_searching script.now (map string_bytes words.now) }
        ensures file { IfSome result
            (λ call. IfSome call.schedule (λ name. name.now ≢ codes "-")) }
        ensures expected { IfSome result
            (λ call. IfSome call.expected (λ name. name.now ≢ codes "-")) }
    {
        let [word, rest @ ..] = words else {
            return Call::canceling(script, MOST_STATES, words);
        };
        match states_in(word.as_str()) {
            Some(most) => Call::canceling(script, most, rest),
            None => Call::canceling(script, MOST_STATES, words),
        }
    }

    /// The call for a search of the script of this name.
    fn to_explore(names: &'a [String]) -> Option<Call<'a>>
        ensures call { option_map view_call result
            ≡ call_to_explore (map string_bytes names.now) }
        ensures file { IfSome result
            (λ call. IfSome call.schedule (λ name. name.now ≢ codes "-")) }
        ensures expected { IfSome result
            (λ call. IfSome call.expected (λ name. name.now ≢ codes "-")) }
    {
        match names {
            [script, words @ ..] => Call::searching(script.as_str(), words),
            _ => None,
        }
    }
}
