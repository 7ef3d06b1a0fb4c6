// From a text to the program's nodes, its table of procedures and its sizes.
ghost use Rattle.text.specs.Loads.{Loads};

use crate::bare::read;
use crate::judge::Refused;
use crate::links::link;
use crate::table::tabulate;
use language::nodes::{MOST_NODES, Node, Sizes};
use language::parsed::Parsed;

// The program that a text is the writing of, if it is within the limits. Nodes and entries past the program's are blank.
pub fn load(text: &[u8]) -> Result<Parsed, Refused>
    ensures { Loads text.now result }
{
    let mut nodes = [Node::Skip; MOST_NODES];
    let reader = read(text, &mut nodes).ok_or(Refused::NoProgram)?;
    reader.verdict()?;
    link(&mut nodes, reader.signs);
    let table = tabulate(&nodes, reader.count);
    Ok(Parsed {
        nodes,
        table,
        sizes: Sizes {
            globals: reader.globals,
            cells: reader.cells,
            procs: reader.count,
            signs: reader.signs,
        },
    })
}
