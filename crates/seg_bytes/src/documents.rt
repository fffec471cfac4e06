//! So many documents from bytes.
ghost use Rattle.std.specs.Prelude.{◌≡◌, ◌≤◌, ◌+◌, IfErr, IfOk, length};
ghost use Rattle.seg_bytes.specs.Answers.{Reads, Refuses};
ghost use Rattle.seg_bytes.specs.DocumentBytes.{documents_bytes};
ghost use Rattle.seg_bytes.specs.DocumentsRead.{document_at as document_is, documents_at};
ghost use Rattle.seg_bytes.specs.Fields.{many_at, reads};
ghost use Rattle.seg_bytes.specs.Laws.{StandsAt};

use crate::error::ReadError;
use crate::field::Field;
use crate::pushing::push;
use crate::reading::document_at;
use sg_paths::Numbered;
use std::alloc::Global;

/// Documents that were read.
#[derive(Debug, Drop)]
pub struct DocumentsRead {
    pub docs: Vec<Numbered>,
    /// The offset behind them.
    pub end: usize,
}

fn all_at(
    alloc: Global,
    bytes: &[u8],
    at: usize,
    count: u32,
) -> Result<Field<Vec<Numbered>>, ReadError>
    ensures value { Reads (λ v. v.items) (many_at document_is count bytes.now at) result }
    ensures count { IfOk result (λ v. length v.value.items ≡ count) }
{
    let mut docs = Vec::new(alloc);
    let mut end = at;
    for _ in 0..count {
        let document = document_at(alloc, bytes, end)?;
        push(&mut docs, document.value)?;
        end = document.end;
    }
    Ok(Field { value: docs, end })
}

/// Reads so many documents from an offset on. Takes memory as documents are found, whatever the
/// count.
pub fn read_documents(
    alloc: Global,
    bytes: &[u8],
    at: usize,
    count: u32,
) -> Result<DocumentsRead, ReadError>
    ensures ok { IfOk result (λ r. documents_at count bytes.now at ≡ reads r.docs.items r.end) }
    ensures refused { IfErr result (Refuses (documents_at count bytes.now at)) }
    ensures count { IfOk result (λ r. length r.docs.items ≡ count) }
    ensures written { IfOk result (λ r. StandsAt (documents_bytes r.docs.items) at bytes.now) }
    ensures end { IfOk result (λ r. r.end ≡ at + length (documents_bytes r.docs.items)) }
    ensures within { IfOk result (λ r. at ≤ length bytes.now → r.end ≤ length bytes.now) }
{
    let all = all_at(alloc, bytes, at, count)?;
    Ok(DocumentsRead {
        docs: all.value,
        end: all.end,
    })
}
