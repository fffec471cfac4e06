//! Building the transducer of paths.
ghost use Rattle.std.specs.Prelude.{◌≡◌, ◌≤◌, IfOk, OnOk, length, map};
ghost use Rattle.std.specs.List.{All};
ghost use Rattle.sg_paths.specs.declared.limits.TheConstants.{MOST_SEGMENT_PATHS};
ghost use Rattle.sg_paths.specs.AllPaths.{path_bytes};
ghost use Rattle.sg_paths.specs.PathLaws.{IsLegal, Rises};
ghost use Rattle.fst_code.specs.Bytes.{nodes_of};
ghost use Rattle.fst_code.specs.Lists.{list_of, IsCanonical, IsOnlyText};
ghost use Rattle.segment.specs.Represents.{path_tail};

use fst_build::Builder;
use fst_code::Transducer;
use sg_base::{CONTEXT_END, KEY_END, MOST_WEIGHT};
use sg_paths::Path;
use std::alloc::{AllocError, Global};

/// Makes the bytes those of a path.
fn put_path(bytes: &mut Vec<u8>, path: &Path) -> Result<(), AllocError>
    ensures { OnOk result (bytes.new.items ≡ path_bytes path.now) }
{
    bytes.clear();
    bytes.extend_from_slice(path.context.as_str().as_bytes())?;
    bytes.push(CONTEXT_END)?;
    bytes.extend_from_slice(path.key.as_slice())?;
    bytes.push(KEY_END)?;
    bytes.extend_from_slice(&path.n.to_be_bytes())
}

/// The transducer of paths with their costs. What is kept beside it is one path.
pub(crate) fn transducer_of(alloc: Global, paths: &[Path]) -> Result<Transducer, AllocError>
    requires legal { All (λ p. IsLegal p.entry) paths.now }
    requires rises { Rises (map path_bytes paths.now) }
    requires many { length paths.now ≤ MOST_SEGMENT_PATHS }
    ensures maps { IfOk result (λ t. list_of t ≡ map path_tail paths.now) }
    ensures canonical { IfOk result (λ t. IsCanonical (nodes_of t)) }
    ensures only { IfOk result (IsOnlyText (map path_tail paths.now)) }
{
    let mut builder = Builder::new(alloc)?;
    let mut bytes = Vec::new(alloc);
    for path in paths {
        put_path(&mut bytes, path)?;
        builder.add(bytes.as_slice(), MOST_WEIGHT - path.weight)?;
    }
    builder.finish()
}
