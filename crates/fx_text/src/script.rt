//! Reads whole scripts.
ghost use Rattle.std.specs.Prelude.{◌≡◌, ◌≤◌, [], Ok, length, IfOk, IsOkUnless};
ghost use Rattle.fx_term.specs.Code.{IsCode};
ghost use Rattle.fx_term.specs.Meaning.{root_term};
ghost use Rattle.fx_term.specs.Tree.{IsOneTree};
ghost use Rattle.fx_text.specs.Limits.{most_bytes, most_queues, most_nodes};
ghost use Rattle.fx_text.specs.Token.{next};
ghost use Rattle.fx_text.specs.Reading.{Meaning, last, main_at, script_at, reading};
ghost use Rattle.fx_text.specs.Grammar.{IsScript};
ghost use Rattle.fx_text.specs.Given.{Gives};
ghost use Rattle.fx_text.specs.QueuesView.{view_queues};
ghost use Rattle.fx_text.specs.View.{Answers, meaning};

use crate::fault::{ReadError, TextFault, TextKind};
use crate::part::{closing, refused};
use crate::place::Place;
use crate::queue_decl::QueueDecl;
use crate::queues::queues;
use crate::reader::Reader;
use crate::reader::head::Inner;
use crate::token::{Token, next};
use fx_term::{Code, CodeFault, Node};
use std::alloc::Global;

/// The most bytes of a script.
pub const MOST_SCRIPT_BYTES: usize = 65_536;

/// The most `(` that may be open inside main, which has the first of 100.
const MOST_OPEN: usize = 99;

/// A script: its term as checked code, and its queues in the order of the text.
#[derive(Drop)]
pub struct Script {
    pub code: Code,
    pub queues: Vec<QueueDecl>,
}

impl Script {
    ghost use Rattle.std.specs.Prelude.{◌+◌};
    ghost use Rattle.fx_term.specs.Need.{need, most_need};

    /// How many fibers there can be, main included: at most 4,096. Their numbers are below it.
    pub fn total(&self) -> u32
        ensures is { result ≡ 1 + need (meaning self.now).term }
        ensures few { result ≤ 1 + most_need }
    {
        1 + self.code.need(self.code.root())
    }
}

/// The script that the text says, or the text's first fault. It takes memory in proportion to the
/// length of the text, and time in proportion to that times the number of names in scope.
pub fn parse(alloc: Global, text: &[u8]) -> Result<Script, TextFault>
    // What is read is in the grammar.
    ensures found { IfOk result (λ s. IsScript text.now (meaning s)) }
    // What is in the grammar is read, unless memory runs out.
    ensures only { (m : Meaning) → IsScript text.now m → Answers meaning result (Ok m) }
    // Which fault it is, and where.
    ensures exact { Answers meaning result (reading text.now) }
    // The nodes may name the queues of the script.
    ensures queues { IfOk result (λ s. s.code.queues ≡ length s.queues.items) }
{
    read_all(alloc, text)
}

fn read_all(alloc: Global, text: &[u8]) -> Result<Script, TextFault>
    ensures read { Answers meaning result (reading text.now) }
    ensures queues { IfOk result (λ s. s.code.queues ≡ length s.queues.items) }
{
    if text.len() > MOST_SCRIPT_BYTES {
        return Err(TextFault {
            kind: TextKind::Length,
            at: MOST_SCRIPT_BYTES as u32,
        });
    }
    match read_script(alloc, text) {
        Ok(script) => Ok(script),
        Err(error) => Err(error.answered(text)),
    }
}

#[tactic(auto, unfolding(crate::specs::Reading::script_at))]
fn read_script(alloc: Global, text: &[u8]) -> Result<Script, ReadError>
    requires { length text.now ≤ most_bytes }
    ensures read { Gives meaning result (script_at text.now) }
    ensures queues { IfOk result (λ s. s.code.queues ≡ length s.queues.items) }
{
    let (queues, rest) = queues(alloc, text)?;
    let nodes = main_nodes(alloc, &queues, rest)?;
    let code = checked(alloc, nodes, queues.len() as u8)?;
    Ok(Script { code, queues })
}

/// The nodes of main, of which the last is the root, from what comes after the word `main`.
fn main_nodes<'a>(
    alloc: Global,
    queues: &'a [QueueDecl],
    bytes: &'a [u8],
) -> Result<Vec<Node>, ReadError>
    requires short { length bytes.now ≤ most_bytes }
    requires few { length queues.now ≤ most_queues }
    ensures read { Gives
        (λ nodes. record { queues = view_queues queues.now; term = root_term nodes.items }) result
        (main_at (view_queues queues.now) bytes.now) }
    ensures tree { IfOk result (λ nodes. IsOneTree nodes.items) }
    ensures short { IfOk result (λ nodes. length nodes.items ≤ most_nodes) }
{
    let mut reader = Reader {
        alloc,
        names: Vec::new(alloc),
        place: Place {
            turns: 1,
            foreign: 0,
            queues,
        },
        nodes: Vec::new(alloc),
        needs: Vec::new(alloc),
    };
    let (_root, rest) = reader.term(Inner::Same, MOST_OPEN, bytes)?;
    let rest = closing(rest)?;
    last(rest)?;
    Ok(reader.nodes)
}

/// Nothing comes after main.
fn last(bytes: &[u8]) -> Result<(), ReadError>
    ensures { (m : Meaning)
        → Gives (λ _. m) result (last m (next bytes.now) (next bytes.now).token) }
{
    let lexeme = next(bytes);
    match lexeme.token {
        Token::End => Ok(()),
        _ => Err(refused(TextKind::Main, lexeme)),
    }
}

/// The nodes as a code, which they are.
fn checked(alloc: Global, nodes: Vec<Node>, queues: u8) -> Result<Code, ReadError>
    requires { IsCode queues nodes.items }
    ensures code { IfOk result (λ code. code.nodes ≡ nodes.items) }
    ensures queues { IfOk result (λ code. code.queues ≡ queues) }
    ensures only_memory { IsOkUnless result ReadError.Memory }
{
    match Code::build(alloc, nodes, queues) {
        Ok(code) => Ok(code),
        Err(CodeFault::Memory) => Err(ReadError::Memory),
        Err(CodeFault::Child(_) | CodeFault::Slot(_) | CodeFault::Kind(_) | CodeFault::Limit(_)) =>
            unreachable!(),
    }
}
