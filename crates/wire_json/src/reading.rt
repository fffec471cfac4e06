//! From a line to its command.
ghost use Rattle.std.specs.Prelude.{◌≡◌, IfOk, IfErr, option_map};
ghost use Rattle.sg_analysis.specs.declared.analyzer.Analyzer.{Analyzer};
ghost use Rattle.serde_json.specs.View.{view};
ghost use Rattle.wire_json.specs.Forms as plain;
ghost use Rattle.wire_json.specs.Commands.{command_of_form, command_of_value, command_of_text};
ghost use Rattle.wire_json.specs.Commands.{is_blank_byte, is_blank, command_of};
ghost use Rattle.wire_json.specs.CommandForms.{plain_command, Refuses, MayWantMemory, IsRead};
ghost use Rattle.wire_json.specs.ReadForms.{plain_change, plain_query, plain_form, EntriesFit};
ghost use Rattle.wire_json.specs.ReadForms.{HasItsEntries};

use crate::building::{document, operation, query};
use crate::checks::{check_change, check_delete, check_lane, check_suggest, lane_or_first};
use crate::commands::Command;
use crate::errors::LineError;
use crate::forms::{Form, GivenChange, GivenQuery, read_form};
use crate::keys::{input_keys, prefix_key};
use crate::limits::MOST_LINE_BYTES;
use serde_json::{Category, Value};
use sg_analysis::Analyzer;
use sg_base::Text;
use sg_paths::Op;
use std::alloc::{AllocError, Global};

fn change(
    alloc: Global,
    lanes: u32,
    analyzer: &Analyzer,
    given: &GivenChange<'_>,
) -> Result<Command, LineError>
    requires { EntriesFit given.now }
    ensures ok { IfOk result (λ c.
        command_of_form analyzer.now lanes (plain_change given.now) ≡ plain_command c) }
    ensures refused { IfErr result (Refuses
        (command_of_form analyzer.now lanes (plain_change given.now))) }
    ensures read { IfOk result (λ c. IsRead (plain_command c)) }
{
    let entries = given.entries.as_slice();
    let keys = input_keys(alloc, analyzer, entries)?;
    match check_change(
        lanes,
        given.lane,
        given.id,
        given.suggestions,
        keys.as_slice(),
    ) {
        Ok(()) => {
            let document = document(alloc, given.id, entries, keys)?;
            Ok(Command::Accept {
                lane: lane_or_first(lanes, given.lane),
                op: operation(given.how, document),
            })
        }
        Err(error) => Err(error),
    }
}

fn delete(alloc: Global, lanes: u32, lane: Option<&Value>, id: &str) -> Result<Command, LineError>
    ensures ok { IfOk result (λ c. (analyzer : Analyzer) → command_of_form analyzer lanes
        (plain.delete (option_map (λ v. view v.now) lane.entry) id.now) ≡ plain_command c) }
    ensures refused { IfErr result (λ e. (analyzer : Analyzer) → Refuses (command_of_form analyzer
        lanes (plain.delete (option_map (λ v. view v.now) lane.entry) id.now)) e) }
    ensures read { IfOk result (λ c. IsRead (plain_command c)) }
{
    check_delete(lanes, lane, id)?;
    let id = Text::of(alloc, id)?;
    Ok(Command::Accept {
        lane: lane_or_first(lanes, lane),
        op: Op::Delete(id),
    })
}

fn open_view(
    alloc: Global,
    lanes: u32,
    lane: Option<&Value>,
    name: &str,
) -> Result<Command, LineError>
    ensures ok { IfOk result (λ c. (analyzer : Analyzer) → command_of_form analyzer lanes
        (plain.open_view (option_map (λ v. view v.now) lane.entry) name.now) ≡ plain_command c) }
    ensures refused { IfErr result (λ e. (analyzer : Analyzer) → Refuses (command_of_form analyzer
        lanes (plain.open_view (option_map (λ v. view v.now) lane.entry) name.now)) e) }
    ensures read { IfOk result (λ c. IsRead (plain_command c)) }
{
    check_lane(lanes, lane)?;
    let name = Text::of(alloc, name)?;
    Ok(Command::OpenView {
        lane: lane_or_first(lanes, lane),
        name,
    })
}

fn close_view(
    alloc: Global,
    lanes: u32,
    lane: Option<&Value>,
    name: &str,
) -> Result<Command, LineError>
    ensures ok { IfOk result (λ c. (analyzer : Analyzer) → command_of_form analyzer lanes
        (plain.close_view (option_map (λ v. view v.now) lane.entry) name.now) ≡ plain_command c) }
    ensures refused { IfErr result (λ e. (analyzer : Analyzer) → Refuses (command_of_form analyzer
        lanes (plain.close_view (option_map (λ v. view v.now) lane.entry) name.now)) e) }
    ensures read { IfOk result (λ c. IsRead (plain_command c)) }
{
    check_lane(lanes, lane)?;
    let name = Text::of(alloc, name)?;
    Ok(Command::CloseView {
        lane: lane_or_first(lanes, lane),
        name,
    })
}

fn flush(lanes: u32, lane: Option<&Value>) -> Result<Command, LineError>
    ensures ok { IfOk result (λ c. (analyzer : Analyzer) → command_of_form analyzer lanes
        (plain.flush (option_map (λ v. view v.now) lane.entry)) ≡ plain_command c) }
    ensures refused { IfErr result (λ e. (analyzer : Analyzer) → Refuses (command_of_form analyzer
        lanes (plain.flush (option_map (λ v. view v.now) lane.entry))) e) }
    ensures read { IfOk result (λ c. IsRead (plain_command c)) }
{
    check_lane(lanes, lane)?;
    Ok(Command::Flush {
        lane: lane_or_first(lanes, lane),
    })
}

fn merge(lanes: u32, lane: Option<&Value>) -> Result<Command, LineError>
    ensures ok { IfOk result (λ c. (analyzer : Analyzer) → command_of_form analyzer lanes
        (plain.merge (option_map (λ v. view v.now) lane.entry)) ≡ plain_command c) }
    ensures refused { IfErr result (λ e. (analyzer : Analyzer) → Refuses (command_of_form analyzer
        lanes (plain.merge (option_map (λ v. view v.now) lane.entry))) e) }
    ensures read { IfOk result (λ c. IsRead (plain_command c)) }
{
    check_lane(lanes, lane)?;
    Ok(Command::Merge {
        lane: lane_or_first(lanes, lane),
    })
}

// The name of a view as a text of its own.
fn owned_name(alloc: Global, name: Option<&str>) -> Result<Option<Text>, AllocError>
    ensures { IfOk result (λ owned. owned ≡ option_map (λ s. s.now) name.entry) }
{
    match name {
        Some(name) => Ok(Some(Text::of(alloc, name)?)),
        None => Ok(None),
    }
}

fn suggest(
    alloc: Global,
    lanes: u32,
    analyzer: &Analyzer,
    given: GivenQuery<'_>,
) -> Result<Command, LineError>
    ensures ok { IfOk result (λ c.
        command_of_form analyzer.now lanes (plain_query given.entry) ≡ plain_command c) }
    ensures refused { IfErr result (Refuses
        (command_of_form analyzer.now lanes (plain_query given.entry))) }
    ensures read { IfOk result (λ c. IsRead (plain_command c)) }
{
    let key = prefix_key(alloc, analyzer, given.prefix)?;
    match check_suggest(lanes, given.lane, given.k, given.contexts, &key) {
        Ok(()) => {
            let query = query(alloc, key, given.k, given.contexts)?;
            let view = owned_name(alloc, given.view)?;
            Ok(Command::Suggest {
                lane: lane_or_first(lanes, given.lane),
                query,
                view,
            })
        }
        Err(error) => Err(error),
    }
}

fn command_for(
    alloc: Global,
    lanes: u32,
    analyzer: &Analyzer,
    form: Form<'_>,
) -> Result<Command, LineError>
    requires { HasItsEntries form }
    ensures ok { IfOk result (λ c.
        command_of_form analyzer.now lanes (plain_form form.entry) ≡ plain_command c) }
    ensures refused { IfErr result (Refuses
        (command_of_form analyzer.now lanes (plain_form form.entry))) }
    ensures read { IfOk result (λ c. IsRead (plain_command c)) }
{
    match form {
        Form::Change { given } => change(alloc, lanes, analyzer, &given),
        Form::Delete { lane, id } => delete(alloc, lanes, lane, id),
        Form::Suggest { given } => suggest(alloc, lanes, analyzer, given),
        Form::OpenView { lane, name } => open_view(alloc, lanes, lane, name),
        Form::CloseView { lane, name } => close_view(alloc, lanes, lane, name),
        Form::Flush { lane } => flush(lanes, lane),
        Form::Merge { lane } => merge(lanes, lane),
    }
}

fn command_by_value(
    alloc: Global,
    lanes: u32,
    analyzer: &Analyzer,
    value: &Value,
) -> Result<Command, LineError>
    ensures ok { IfOk result (λ c.
        command_of_value analyzer.now lanes (view value.now) ≡ plain_command c) }
    ensures refused { IfErr result (Refuses
        (command_of_value analyzer.now lanes (view value.now))) }
    ensures read { IfOk result (λ c. IsRead (plain_command c)) }
{
    match read_form(alloc, value) {
        Ok(Some(form)) => command_for(alloc, lanes, analyzer, form),
        Ok(None) => Err(LineError::Shape),
        Err(AllocError) => Err(LineError::Memory),
    }
}

fn command_by_text(
    alloc: Global,
    lanes: u32,
    analyzer: &Analyzer,
    line: &[u8],
) -> Result<Command, LineError>
    ensures ok { IfOk result (λ c. command_of_text analyzer.now lanes line.now ≡ plain_command c) }
    ensures refused { IfErr result (Refuses (command_of_text analyzer.now lanes line.now)) }
    ensures read { IfOk result (λ c. IsRead (plain_command c)) }
{
    match Value::from_slice(alloc, line) {
        Ok(value) => command_by_value(alloc, lanes, analyzer, &value),
        Err(error) => match error.classify() {
            Category::Memory => Err(LineError::Memory),
            _ => Err(LineError::Json),
        },
    }
}

fn is_blank_byte(byte: u8) -> bool
    ensures { result ≡ is_blank_byte byte }
{
    byte == b' ' || byte == b'\t' || byte == b'\r'
}

fn is_blank(line: &[u8]) -> bool
    ensures { result ≡ is_blank line.now }
{
    line.iter().all(|byte| is_blank_byte(*byte))
}

/// What a line asks for, without its line feed, where there are `lanes` workers. The line's value
/// is read once, and each of its texts is analysed once. The errors in order: those of `LineError`,
/// but `Memory` may come in place of any from `Json` on.
pub fn command(
    alloc: Global,
    line: &[u8],
    lanes: u32,
    analyzer: &Analyzer,
) -> Result<Command, LineError>
    ensures ok { IfOk result (λ c. command_of analyzer.now lanes line.now ≡ plain_command c) }
    ensures refused { IfErr result (Refuses (command_of analyzer.now lanes line.now)) }
    ensures memory { IfErr result (MayWantMemory line.now) }
    ensures read { IfOk result (λ c. IsRead (plain_command c)) }
{
    if line.len() > MOST_LINE_BYTES {
        return Err(LineError::Long);
    }
    if is_blank(line) {
        return Ok(Command::Blank);
    }
    command_by_text(alloc, lanes, analyzer, line)
}
