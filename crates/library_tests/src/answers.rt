use crate::making::{document_of, query_of};
use crate::table::{assert_same, given};
use sg_answers::{NumberedRef, first_rows};
use sg_base::Rank;
use sg_paths::Numbered;
use std::alloc::Global;
use std::test::Fail;

// A row each: its name, a query with its prefix, its number of rows and its contexts, documents
// with the numbers 1, 2 .., and the rows wanted: score, key, number and place. A suggestion is its
// key, its weight and behind @ its contexts; `*` ends the beginning of a context, and `.` is the
// empty prefix.
const ROWS: &str = "\
no document|. 3||
the weight alone|pa 3|paris:5|5 paris 1/0
a key that begins otherwise|pa 3|pisa:5|
a key that is shorter|paris 3|pa:5|
every key begins with nothing|. 3|pisa:5|5 pisa 1/0
without query contexts each context counts|pa 3|paris:5@fr,de|5 paris 1/0
weight times boost|pa 3 fr=3|paris:5@fr|15 paris 1/0
a context that isn't asked for|pa 3 fr=3|paris:5@de|
no context where one is asked for|pa 3 fr=3|paris:5|
the empty context|pa 3 =6|paris:5 ; pau:9@fr|30 paris 1/0
the empty context as given|pa 3 =6|paris:5@|30 paris 1/0
the greatest boost stands last|pa 3 fr=2 de=3 it=7|paris:5@fr,de,it|35 paris 1/0
the greatest boost stands first|pa 3 fr=2 de=3 it=7|paris:5@it,de,fr|35 paris 1/0
the greatest of one context|pa 3 fr=2 f*=4 fr=3|paris:5@fr|20 paris 1/0
contexts that begin so|pa 3 f*=4|paris:5@de,fr ; pau:5@f|20 paris 1/0, 20 pau 2/0
every context begins with nothing|pa 3 *=2|paris:5 ; pau:4@fr|10 paris 1/0, 8 pau 2/0
a context given twice|pa 3|paris:12@de,de|12 paris 1/0
a context asked for twice|pa 3 de=2 de=2|paris:12@de,de|24 paris 1/0
one key, the greater weight first|pa 3|pau:9@fr pau:3@fr|9 pau 1/0
one key, the greater weight last|pa 3|pau:3@fr pau:9@fr|9 pau 1/1
one key and weight|pa 3 fr=2|pau:9@fr pau:9@fr|18 pau 1/0
one key in two contexts|pa 3 fr=2 de=1|pau:6@de pau:5@fr|10 pau 1/1
one key and score in two contexts|pa 3 fr=2 de=3|pau:3@fr pau:2@de|6 pau 1/0
a weight of 0|pa 3 fr=9|pau:0@fr pau:0|0 pau 1/0
weights of 0 by place|pa 3 fr=9 de=3|pau:0@de pau:0@fr|0 pau 1/0
the greatest score|pa 3 x=2147483647|pau:2147483647@x|4611686014132420609 pau 1/0
a document has one row|pa 3|paris:5 pau:8 pa:2 ; pa:1|8 pau 1/1, 1 pa 2/0
a lesser weight with a greater boost|pa 3 fr=2 de=1|pau:8@de paris:5@fr|10 paris 1/1
a document's keys at one score|pa 3|pau:5 paris:5|5 paris 1/1
equal scores by key|pa 3|pau:5 ; paris:5 ; pa:5|5 pa 3/0, 5 paris 2/0, 5 pau 1/0
equal keys by number|pa 3|pau:5 ; pau:5 ; pau:6|6 pau 3/0, 5 pau 1/0, 5 pau 2/0
the number before the place|pa 3|x:9 pau:5 ; pau:5|5 pau 1/1, 5 pau 2/0
as many as are asked for|pa 2|pa:1 ; pa:3 ; pa:2|3 pa 2/0, 2 pa 3/0
one row|pa 1|pa:1 ; pa:3 ; pa:2|3 pa 2/0
the k-th of equal rows|pa 2|pau:5 ; pa:5 ; pau:5|5 pa 2/0, 5 pau 1/0
";

fn documents_of(alloc: Global, spelled: &str) -> Result<Vec<Numbered>, Fail> {
    let mut documents = Vec::new(alloc);
    for document in spelled.split(';') {
        if !document.trim().is_empty() {
            let seq = documents.len() as u64 + 1;
            let document = document_of(alloc, "id", document)?;
            documents.push(Numbered { seq, document })?;
        }
    }
    Ok(documents)
}

fn lent(alloc: Global, documents: &[Numbered]) -> Result<Vec<NumberedRef<'_>>, Fail> {
    let mut lent = Vec::new(alloc);
    for numbered in documents {
        lent.push(NumberedRef {
            seq: numbered.seq,
            document: &numbered.document,
        })?;
    }
    Ok(lent)
}

fn push_ranks(told: &mut String, ranks: &[Rank]) -> Result<(), Fail> {
    let mut between = "";
    for rank in ranks {
        let key = str::from_utf8(rank.key.as_slice())?;
        write!(
            told,
            "{between}{} {key} {}/{}",
            rank.score, rank.seq, rank.place
        )?;
        between = ", ";
    }
    Ok(())
}

fn push_answer(told: &mut String, query: &str, documents: &str) -> Result<(), Fail> {
    let alloc = *told.allocator();
    let documents = documents_of(alloc, documents)?;
    let lent = lent(alloc, documents.as_slice())?;
    let query = query_of(alloc, query)?;
    let rows = first_rows(alloc, &query, lent.as_slice())?;
    push_ranks(told, rows.as_slice())
}

fn push_row(told: &mut String, row: &str) -> Result<(), Fail> {
    let Some((front, given)) = given(row) else {
        return Err("no rows".into());
    };
    let Some((query, documents)) = given.split_once('|') else {
        return Err("no documents".into());
    };
    write!(told, "{front}|")?;
    push_answer(told, query, documents)?;
    told.push_str("\n")?;
    Ok(())
}

fn rows_again(alloc: Global) -> Result<String, Fail> {
    let mut told = String::new(alloc);
    for row in ROWS.lines() {
        push_row(&mut told, row)?;
    }
    Ok(told)
}

#[test]
fn documents_answer_by_their_best_paths(rt: HostRuntime) -> Result<(), Fail> {
    let told = rows_again(rt.alloc())?;
    assert_same(&rt, told.as_str(), ROWS);
    Ok(())
}
