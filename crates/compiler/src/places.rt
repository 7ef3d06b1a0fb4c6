// Where the code of each sign begins, in the order of the text. Every sign stands before its parts, so that of several that
// begin at one place the outermost comes first.
ghost use Rattle.std.specs.Prelude.{◌≡◌};
ghost use Rattle.language.specs.Held.{HeldProgram, SomeProgram};
ghost use Rattle.language.specs.Language.{Program};
ghost use Rattle.text.specs.Signs.{room};
ghost use Rattle.signs.specs.Places.{sign_places};
ghost use Rattle.compiler.specs.Places.{PlacesWork, PlacesStmt, PlacesProc};
ghost use Rattle.compiler.specs.Procs.{ProcWorks};
ghost use Rattle.compiler.specs.Work.{Works, StmtWorks};

use crate::measure::{measure_stmt, measure_work};
use crate::parts::{Parts, split};
use crate::procs::measure_proc;
use crate::sizes::{GO_UNLESS_WORDS, GO_WORDS, HEAD_WORDS, LOOP_WORDS, PUSH_WORDS, START_WORDS};
use language::nodes::{Node, Procedure};
use language::parsed::Parsed;
use text::signs::{Notes, note};

// Of an expression, or of a statement whose parts are expressions.
pub(crate) fn place_work(nodes: &[Node], i: u16, at: usize, places: &mut Notes)
    requires { Works nodes.now i at }
    ensures { PlacesWork nodes.now i at places.old.items places.new.items }
{
    note(places, at);
    match split(nodes[i as usize]) {
        Parts::Nothing => {}
        Parts::One(part) => place_work(nodes, part, at, places),
        Parts::Two(first, second) => {
            let x = measure_work(nodes, first, at);
            place_work(nodes, first, at, places);
            place_work(nodes, second, x + PUSH_WORDS, places);
        }
    }
}

// Of a statement. The text has the first statement of an `if` before the second, and the image has it behind.
pub(crate) fn place_stmt(nodes: &[Node], i: u16, at: usize, places: &mut Notes)
    requires { StmtWorks nodes.now i at }
    ensures { PlacesStmt nodes.now i at places.old.items places.new.items }
{
    match nodes[i as usize] {
        Node::Then(a, b) => {
            let x = measure_stmt(nodes, a, at);
            note(places, at);
            place_stmt(nodes, a, at, places);
            place_stmt(nodes, b, x, places);
        }
        Node::If(test, first, second) => {
            let x = measure_work(nodes, test, at);
            let else_place = x + GO_UNLESS_WORDS;
            let y = measure_stmt(nodes, second, else_place);
            note(places, at);
            place_work(nodes, test, at, places);
            place_stmt(nodes, first, y + GO_WORDS, places);
            place_stmt(nodes, second, else_place, places);
        }
        Node::While(test, body) => {
            let x = measure_work(nodes, test, at);
            note(places, at);
            place_work(nodes, test, at, places);
            place_stmt(nodes, body, x + LOOP_WORDS, places);
        }
        _ => place_work(nodes, i, at, places),
    }
}

// Of a procedure.
fn place_proc(nodes: &[Node], procedure: Procedure, at: usize, places: &mut Notes)
    requires { ProcWorks nodes.now procedure at }
    ensures { PlacesProc nodes.now procedure at places.old.items places.new.items }
{
    note(places, at);
    let body_place = at + HEAD_WORDS + procedure.locals as usize;
    place_stmt(nodes, procedure.body, body_place, places);
}

// Of a program.
pub(crate) fn place_signs(parsed: &Parsed) -> Notes
    requires { SomeProgram parsed.now }
    ensures { (g : Program) → HeldProgram parsed.now g → result.items ≡ room (sign_places g) }
{
    let mut places = Notes::new();
    let mut at = START_WORDS;
    for procedure in parsed.procedures() {
        place_proc(&parsed.nodes, *procedure, at, &mut places);
        at = measure_proc(&parsed.nodes, *procedure, at);
    }
    places
}
