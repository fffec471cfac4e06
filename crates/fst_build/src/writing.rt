//! The bytes of frozen nodes and a root.
ghost use Rattle.std.specs.Prelude.{◌≡◌, ◌<◌, ◌+◌, ◌++◌, ◌∷◌, [], length, IfOk, OnOk};
ghost use Rattle.std.specs.List.{flat_map};
ghost use Rattle.fst_code.specs.Bytes.{arc_bytes, entry_bytes, first_form, encoding};
ghost use Rattle.fst_build.specs.Levels.{total_edges};

use fst_code::{put_header, put_node, put_number};
use fst_register::Register;
use sg_base::Edge;
use std::alloc::{AllocError, Global};

/// The bytes of a register's nodes with a root behind them. Room for all is made once.
pub fn encode_nodes(
    alloc: Global,
    register: &Register,
    root: &[Edge],
    paths: u32,
) -> Result<Vec<u8>, AllocError>
    requires nodes { length register.now < 4294967295 }
    requires arcs { total_edges register.now + length root.now < 4294967296 }
    ensures { IfOk result (λ bytes. bytes.items
        ≡ encoding first_form paths (register.now ++ root.now ∷ [])) }
{
    let nodes = register.len();
    let arcs = arcs_of(register) + root.len();
    let mut bytes = Vec::new(alloc);
    bytes.reserve(16 + 4 * (nodes + 1) + 13 * arcs)?;
    put_header(&mut bytes, nodes as u32 + 1, arcs as u32, paths)?;
    put_entries(&mut bytes, register)?;
    put_number(&mut bytes, arcs as u32)?;
    put_nodes(&mut bytes, register)?;
    put_node(&mut bytes, root)?;
    Ok(bytes)
}

fn arcs_of(register: &Register) -> usize
    requires arcs { total_edges register.now < 4294967296 }
    requires nodes { length register.now < 4294967295 }
    ensures { result ≡ total_edges register.now }
{
    let mut arcs = 0;
    for id in 0..register.len() {
        arcs += register.node(id as u32).len();
    }
    arcs
}

fn put_entries(bytes: &mut Vec<u8>, register: &Register) -> Result<(), AllocError>
    requires arcs { total_edges register.now < 4294967296 }
    requires nodes { length register.now < 4294967295 }
    ensures { OnOk result (bytes.new.items ≡ bytes.old.items ++ entry_bytes 0 register.now) }
{
    let mut end = 0;
    for id in 0..register.len() {
        end += register.node(id as u32).len();
        put_number(bytes, end as u32)?;
    }
    Ok(())
}

fn put_nodes(bytes: &mut Vec<u8>, register: &Register) -> Result<(), AllocError>
    requires nodes { length register.now < 4294967295 }
    ensures { OnOk result (bytes.new.items
        ≡ bytes.old.items ++ flat_map (flat_map (arc_bytes first_form)) register.now) }
{
    for id in 0..register.len() {
        put_node(bytes, register.node(id as u32))?;
    }
    Ok(())
}
