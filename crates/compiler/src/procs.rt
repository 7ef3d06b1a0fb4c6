// The code of procedures, and the places where they begin.
ghost use Rattle.std.specs.Prelude.{◌≡◌, suc, ◌<◌, ◌≤◌, length, take};
ghost use Rattle.words.specs.Words.{memory_size};
ghost use Rattle.codegen.specs.Codegen.{code, entry};
ghost use Rattle.language.specs.Held.{HeldProgram, SomeProgram};
ghost use Rattle.language.specs.Language.{Program};
ghost use Rattle.language.specs.Limits.{most_procs};
ghost use Rattle.compiler.specs.Procs.{ProcWorks, FrameOf, EndsProc, WroteProc, Places, IsImage};
ghost use Rattle.compiler.specs.Writing.{put_all};

use crate::measure::measure_stmt;
use crate::sizes::{HEAD_WORDS, RETURN_WORDS, START_WORDS};
use crate::source::Source;
use crate::writer::Writer;
use language::frames::frame_of;
use language::nodes::{MOST_PROCEDURES, Node, Procedure};
use language::parsed::Parsed;

// The place after a procedure's code.
pub(crate) fn measure_proc(nodes: &[Node], procedure: Procedure, at: usize) -> usize
    requires { ProcWorks nodes.now procedure at }
    ensures { EndsProc nodes.now procedure at result }
{
    let body_place = at + HEAD_WORDS + procedure.locals as usize;
    let body_end = measure_stmt(nodes, procedure.body, body_place);
    body_end + RETURN_WORDS
}

impl Source<'_> {
    // Writes the code of a procedure whose frame has this size.
    fn emit_proc(&self, procedure: Procedure, size: u16, writer: &mut Writer<'_>)
        requires works { ProcWorks self.now.nodes.now procedure writer.old.at }
        requires sized { FrameOf self.now.nodes.now procedure size }
        ensures { WroteProc self.now procedure writer.old writer.new }
    {
        writer.check_room(size);
        writer.make_frame(procedure.locals);
        writer.clear_locals(procedure.locals);
        self.emit_stmt(procedure.body, writer);
        writer.leave_frame(procedure.locals, size);
    }
}

// The place after procedure f, which begins at the place `at`; past the last procedure the place stays.
fn next_place(parsed: &Parsed, f: usize, at: usize) -> usize
    requires few { f < most_procs }
    requires stands { (g : Program) × HeldProgram parsed.now g × (at ≡ entry g f) }
    ensures { (g : Program) → HeldProgram parsed.now g → at ≡ entry g f → result ≡ entry g (suc f) }
{
    if f < parsed.sizes.procs {
        measure_proc(&parsed.nodes, parsed.table[f], at)
    } else {
        at
    }
}

// That some program is held is asked for by four functions: the prover keeps in a ghost field of `Parsed` only facts of
// which there is at most one proof, and which program it is, which the code is written for, is data (tried).

// The place of every procedure; the entries past the last have the place after it.
pub(crate) fn place_procs(parsed: &Parsed) -> [u16; MOST_PROCEDURES]
    requires { SomeProgram parsed.now }
    ensures { Places parsed.now result }
{
    let mut places = [0u16; MOST_PROCEDURES];
    let mut at = START_WORDS;
    for (f, place) in places.iter_mut().enumerate() {
        *place = at as u16;
        at = next_place(parsed, f, at);
    }
    places
}

// Writes a program's code from place 0 on.
fn emit_program(parsed: &Parsed, places: &[u16; MOST_PROCEDURES], image: &mut [u16])
    requires stands { SomeProgram parsed.now }
    requires placed { Places parsed.now places.now }
    requires whole { length image.old ≡ memory_size }
    ensures { (g : Program) → HeldProgram parsed.now g → image.new ≡ put_all image.old 0 (code g) }
{
    let source = Source {
        nodes: &parsed.nodes,
        cells: parsed.sizes.cells as u16,
        places,
    };
    let mut writer = Writer { image, at: 0 };
    writer.start(places[0]);
    for procedure in parsed.procedures() {
        let size = frame_of(&parsed.nodes, *procedure) as u16;
        source.emit_proc(*procedure, size, &mut writer);
    }
}

// Makes the image of a program: 0, and then its code from place 0 on.
pub(crate) fn assemble(parsed: &Parsed, image: &mut [u16])
    requires stands { SomeProgram parsed.now }
    requires whole { length image.old ≡ memory_size }
    ensures { (g : Program) → HeldProgram parsed.now g → IsImage g image.new }
{
    let places = place_procs(parsed);
    image.fill(0);
    emit_program(parsed, &places, image);
}
