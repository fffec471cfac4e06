//! Walks over the transducer of a segment, beside a plain computation over the list of its paths.
use fst_walk::{Cursor, Start, Starts, seek};
use segment::Segment;
use sg_base::{Bytes, CONTEXT_END, Context, Key, List, MOST_WEIGHT, Plain, Steps, Text};
use sg_context::{Query, QueryContext, boost_of};
use sg_paths::{Batch, Document, Op, Suggestion};
use std::alloc::{AllocError, Global};
use std::process::Abort;
use std::test::Fail;

/// A path with its cost.
#[derive(Drop)]
struct Path {
    context: String,
    key: String,
    bytes: Vec<u8>,
    cost: u32,
}

/// Contexts, keys and costs in byte order of their paths. `^` stands for the byte 0x02, and `~` for
/// the byte 0x7F.
const LISTED: &str = "
    ^^|bern|9
    ^|berlin|3
    |berlin|7
    |bern|5
    a^^b|bern|4
    a^|berlin|2
    a|berlin|6
    a|bern|1
    a|cork|0
    ab^|cork|8
    ab|berlin|11
    ab|bern|10
    abc|aachen|2
    abc|berlin|12
    b|cork|3
    c|bern|2
    ca|b|2
    caa|be|2
    caaa|ber|2
    c~|berlin|2
";

/// A text with the characters that its marks stand for.
fn marked(alloc: Global, text: &str) -> Result<String, Fail> {
    let text = text.replace(alloc, "^", "\u{2}")?;
    Ok(text.as_str().replace(alloc, "~", "\u{7f}")?)
}

/// The bytes of a path: its context, its end, the key, and number 0.
fn bytes_of(alloc: Global, context: &str, key: &str) -> Result<Vec<u8>, AllocError> {
    let mut bytes = Vec::from_slice(alloc, context.as_bytes())?;
    bytes.push(CONTEXT_END)?;
    bytes.extend_from_slice(key.as_bytes())?;
    bytes.extend_from_slice(&[0, 0, 0, 0, 0])?;
    Ok(bytes)
}

fn path_of(alloc: Global, line: &str) -> Result<Path, Fail> {
    let (context, rest) = line.split_once('|').ok_or("no context")?;
    let (key, cost) = rest.split_once('|').ok_or("no key")?;
    let cost = cost.parse::<u32>()?;
    let context = marked(alloc, context)?;
    let bytes = bytes_of(alloc, context.as_str(), key)?;
    let key = String::from_str(alloc, key)?;
    Ok(Path {
        context,
        key,
        bytes,
        cost,
    })
}

/// The paths of the table.
fn listed(alloc: Global) -> Result<Vec<Path>, Fail> {
    let mut paths = Vec::new(alloc);
    for line in LISTED.split_whitespace() {
        paths.push(path_of(alloc, line)?)?;
    }
    Ok(paths)
}

// A suggestion of a path, which has its key as its text.
fn suggestion_of(alloc: Global, path: &Path) -> Result<Suggestion, Fail> {
    let contexts = vec![in alloc; Context::new(alloc, path.context.as_str())?]?;
    let text = Text::of(alloc, path.key.as_str())?;
    let key = Key::of(Bytes::of(alloc, path.key.as_bytes())?)?;
    let weight = MOST_WEIGHT.saturating_sub(path.cost);
    Ok(Suggestion::new(text, key, weight, contexts)?)
}

fn document_of(alloc: Global, path: &Path) -> Result<Document, Fail> {
    let suggestions = vec![in alloc; suggestion_of(alloc, path)?]?;
    Ok(Document::new(Text::of(alloc, "d")?, suggestions)?)
}

// The segment that has these paths alone.
fn segment_of(alloc: Global, paths: &[Path]) -> Result<Segment, Fail> {
    let mut ops = Vec::new(alloc);
    for path in paths {
        ops.push(Op::Add(document_of(alloc, path)?))?;
    }
    let count = ops.len() as u64;
    if count == 0 || count > 100 {
        return Err("too many paths".into());
    }
    let batch = Batch {
        from: 1,
        upto: count,
        ops: List::of(ops),
    };
    Ok(Segment::of_batch(alloc, &batch)?)
}

/// Where the paths that begin so begin, and the least cost of them.
fn place_of(paths: &[Path], prefix: &[u8]) -> Option<(usize, u32)> {
    let ordinal = paths
        .iter()
        .position(|path| path.bytes.as_slice().starts_with(prefix))?;
    let cost = paths
        .iter()
        .filter(|path| path.bytes.as_slice().starts_with(prefix))
        .map(|path| path.cost)
        .min()?;
    Some((ordinal, cost))
}

/// The context of a path.
fn context_of(path: &[u8]) -> &[u8] {
    match path.iter().position(|byte| *byte == CONTEXT_END) {
        None => path,
        Some(end) => &path[..end],
    }
}

/// The different contexts of paths in byte order, ascending.
fn contexts_of<'p>(alloc: Global, paths: &'p [Path]) -> Result<Vec<&'p [u8]>, Fail> {
    let mut contexts = Vec::new(alloc);
    let mut last: Option<&'p [u8]> = None;
    for path in paths {
        let context = context_of(path.bytes.as_slice());
        if last != Some(context) {
            contexts.push(context)?;
        }
        last = Some(context);
    }
    contexts.sort()?;
    Ok(contexts)
}

/// The boost of a context, and the place of its paths with the query's prefix.
fn plain_start(
    alloc: Global,
    paths: &[Path],
    query: &Query,
    context: &[u8],
) -> Result<Option<(u32, usize, u32)>, Fail> {
    let mut front = Vec::from_slice(alloc, context)?;
    front.push(CONTEXT_END)?;
    front.extend_from_slice(query.prefix.as_slice())?;
    let boost = boost_of(query.contexts.items(), context);
    let place = place_of(paths, front.as_slice());
    if let (Some(boost), Some((ordinal, cost))) = (boost, place) {
        return Ok(Some((boost, ordinal, cost)));
    }
    Ok(None)
}

/// The starts of a query by all paths, a line each: number, bytes of the context, boost, ordinal and
/// cost.
fn plain_starts(alloc: Global, paths: &[Path], query: &Query) -> Result<String, Fail> {
    let mut text = String::new(alloc);
    let mut number: u32 = 0;
    for context in contexts_of(alloc, paths)? {
        if let Some((boost, ordinal, cost)) = plain_start(alloc, paths, query, context)? {
            let bytes = context.len();
            write!(text, "{number} {bytes} {boost} {ordinal} {cost}\n")?;
            number = number.saturating_add(1);
        }
    }
    Ok(text)
}

fn push_start(text: &mut String, start: &Start) -> Result<(), Fail> {
    let (number, bytes, boost) = (start.number, start.context, start.boost);
    let (ordinal, cost) = (start.spot.ordinal, start.spot.cost);
    write!(text, "{number} {bytes} {boost} {ordinal} {cost}\n")?;
    Ok(())
}

/// The same, by the walk.
fn found_starts(alloc: Global, segment: &Segment, query: &Query) -> Result<String, Fail> {
    let mut steps = Steps::new(Plain);
    let mut starts = Starts::new(segment.transducer(), query);
    let mut text = String::new(alloc);
    for _ in 0..100 {
        let Some(start) = starts.next(&mut steps) else {
            return Ok(text);
        };
        push_start(&mut text, &start)?;
    }
    Err("the starts have no end".into())
}

fn query_context_of(alloc: Global, spelled: &str) -> Result<QueryContext, Fail> {
    let (name, boost) = spelled.split_once('=').ok_or("no boost")?;
    let boost = boost.parse::<u32>()?;
    let beginning = name.strip_suffix('*');
    let text = marked(alloc, beginning.unwrap_or(name))?;
    let context = Context::new(alloc, text.as_str())?;
    Ok(QueryContext::new(context, boost, beginning.is_some())?)
}

/// The query contexts that a text spells: `x=2` has the boost 2, and `x*=2` matches by prefix.
fn asked_of(alloc: Global, spelled: &str) -> Result<Vec<QueryContext>, Fail> {
    let mut asked = Vec::new(alloc);
    for word in spelled.split_whitespace() {
        asked.push(query_context_of(alloc, word)?)?;
    }
    Ok(asked)
}

fn query_of(alloc: Global, prefix: &str, spelled: &str) -> Result<Query, Fail> {
    let prefix = Key::of(Bytes::of(alloc, prefix.as_bytes())?)?;
    Ok(Query::new(prefix, asked_of(alloc, spelled)?, 5)?)
}

#[test]
fn the_cursor_gives_all_paths(rt: HostRuntime) -> Result<(), Fail> {
    let paths = listed(rt.alloc())?;
    let segment = segment_of(rt.alloc(), paths.as_slice())?;
    let transducer = segment.transducer();
    let mut steps = Steps::new(Plain);
    let mut cursor = Cursor::new(transducer);
    for path in paths.iter() {
        assert_eq!(rt; cursor.next(&mut steps), Some(path.cost));
        assert_eq!(rt; cursor.path(), path.bytes.as_slice());
    }
    assert_eq!(rt; cursor.next(&mut steps), None);
    assert_eq!(rt; cursor.next(&mut steps), None);
    Ok(())
}

fn found_place(segment: &Segment, front: &[u8]) -> Option<(usize, u32)> {
    let mut steps = Steps::new(Plain);
    let spot = seek(segment.transducer(), front, &mut steps)?;
    Some((spot.ordinal as usize, spot.cost))
}

// Whether no path begins with this front and `!`.
fn misses(alloc: Global, segment: &Segment, front: &[u8]) -> Result<bool, Fail> {
    let mut other = Vec::from_slice(alloc, front)?;
    other.push(b'!')?;
    Ok(found_place(segment, other.as_slice()).is_none())
}

fn compare_fronts(
    rt: &impl Abort,
    alloc: Global,
    paths: &[Path],
    segment: &Segment,
    path: &[u8],
) -> Result<(), Fail> {
    for count in 1..=path.len() {
        let front = &path[..count];
        assert!(rt;
            found_place(segment, front) == place_of(paths, front),
            "{front:?}"
        );
        assert!(rt; misses(alloc, segment, front)?, "{front:?} and a byte more");
    }
    Ok(())
}

#[test]
fn each_front_has_its_place(rt: HostRuntime) -> Result<(), Fail> {
    let paths = listed(rt.alloc())?;
    let segment = segment_of(rt.alloc(), paths.as_slice())?;
    for path in paths.iter() {
        let bytes = path.bytes.as_slice();
        compare_fronts(&rt, rt.alloc(), paths.as_slice(), &segment, bytes)?;
    }
    Ok(())
}

/// Sixty-four query contexts that overlap.
const MANY: &str = "
    *=1 ^*=2 ^=3 ^^=4 a*=5 a=6 a^*=7 a^=8 a^^*=9 a^^b=10 ab*=11 ab=12 abc*=13 abc=14 abcd=15 b*=16
    b=17 c*=18 c=19 c~=20 c~*=21 ca*=22 ca=23 caa*=24 caa=25 caaa*=26 caaa=27 caaaa*=28 d*=29 d=30
    *=31 a*=32 a*=2 ab*=1 ab=2 abc*=3 ab^*=40 ab^=41 ab^^*=42 ^*=43 ^^*=44 ^^^*=45 x=46 y*=47 z=48
    aa*=49 ac*=50 b^*=51 c^*=52 cb*=53 ~=54 ~*=55 a~*=56 a=57 b=58 c=59 d=60 e=61 f=62 =63 *=1 a=1
    b=1 ca=1
";

/// A prefix and query contexts a line, apart by `|`.
const QUERIES: &str = "|
ber|
b|a*=2
b|a=2
ber|a=2 a=7 a*=3
ber|*=4 a=9 ab*=5
c|a=3 b=2 nowhere=5
ber|^=2 a^=3
b|^*=2 a^*=3 ab^*=4
z|*=2
b|=5
b|=5 *=1
b|a*=1 ab*=9 abc*=3 abc=4
b|caaa*=1 ca=3 c*=2
b|c~*=7 c=2
b|nowhere=5 zzz*=6";

fn compare_starts(
    rt: &impl Abort,
    alloc: Global,
    segment: &Segment,
    paths: &[Path],
    query: &Query,
) -> Result<(), Fail> {
    let found = found_starts(alloc, segment, query)?;
    let wanted = plain_starts(alloc, paths, query)?;
    assert_eq!(rt; found.as_str(), wanted.as_str());
    Ok(())
}

#[test]
fn starts_are_those_of_all_paths(rt: HostRuntime) -> Result<(), Fail> {
    let paths = listed(rt.alloc())?;
    let segment = segment_of(rt.alloc(), paths.as_slice())?;
    for line in QUERIES.lines() {
        let (prefix, spelled) = line.split_once('|').ok_or("no prefix")?;
        let query = query_of(rt.alloc(), prefix, spelled)?;
        compare_starts(&rt, rt.alloc(), &segment, paths.as_slice(), &query)?;
    }
    Ok(())
}

/// The starts of `ber` under the contexts `*=4 a=9 ab*=5`, by another program: number, bytes of the
/// context, boost, ordinal, cost.
const WORKED: &str = "0 0 4 2 5
1 1 4 1 3
2 2 4 0 9
3 1 9 6 1
4 2 4 5 2
5 4 4 4 4
6 2 5 10 10
7 3 5 13 12
8 1 4 15 2
9 4 4 18 2
10 2 4 19 2
";

#[test]
fn starts_of_a_worked_query(rt: HostRuntime) -> Result<(), Fail> {
    let segment = segment_of(rt.alloc(), listed(rt.alloc())?.as_slice())?;
    let query = query_of(rt.alloc(), "ber", "*=4 a=9 ab*=5")?;
    let found = found_starts(rt.alloc(), &segment, &query)?;
    assert_eq!(rt; found.as_str(), WORKED);
    Ok(())
}

#[test]
fn sixty_four_query_contexts_overlap(rt: HostRuntime) -> Result<(), Fail> {
    let paths = listed(rt.alloc())?;
    let segment = segment_of(rt.alloc(), paths.as_slice())?;
    for prefix in ["", "b", "ber", "cork", "z"] {
        let query = query_of(rt.alloc(), prefix, MANY)?;
        compare_starts(&rt, rt.alloc(), &segment, paths.as_slice(), &query)?;
    }
    Ok(())
}
