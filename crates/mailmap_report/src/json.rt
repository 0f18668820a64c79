//! Notices as JSON.
ghost use Rattle.std.specs.Prelude.{◌≡◌, codes, IfOk, OnOk};
ghost use Rattle.std.specs.Option.{option_copied, option_map};
ghost use Rattle.base64.specs.Engines.{standard};
ghost use Rattle.base64.specs.GeneralPurpose.{encode_of};
ghost use Rattle.serde_json.specs.Data.{member, no_members, object, put as put_data, string};
ghost use Rattle.serde_json.specs.View.{members_view, view};
ghost use Rattle.mailmap_report.specs.Json.{file_line_of, members, named_of, notice_of, object_data, object_line, place_data, text_data};
ghost use Rattle.mailmap_report.specs.Json.{with_beside, with_named, with_other, with_text};

use crate::escapes::push_escaped_json;
use crate::notice::{Named, Notice};
use crate::places::Place;
use base64::engine::general_purpose::STANDARD;
use bstr::ByteSlice;
use serde_json::{Map, ToValue, Value, json, put};
use std::alloc::{AllocError, Global};
use std::str;

/// An object with a line feed, as in
///
/// ```text
/// {"file":{"text":"a"},"kind":"no-email","level":"error","line":3,"message":{"text":"no email in brackets"}}
/// ```
///
/// The other line that the message refers to becomes the member `at`. What the message names becomes the members `name`,
/// `email` and `count`, and what it names second those of the member `beside`. Escaped are what JSON
/// needs; `[` after `##`, which GitHub would take for a command; and what controls a terminal or can't be seen.
#[tactic(auto, using(crate::proofs::Objects::no_float))]
pub(crate) fn object_line(alloc: Global, notice: &Notice<'_>) -> Result<Vec<u8>, AllocError>
    ensures { IfOk result (λ line. line.items ≡ object_line (notice_of notice.now)) }
{
    let value = object_value(alloc, notice)?;
    let text = value.to_string(alloc)?;
    let text = text.as_bytes().replace(alloc, b"##[", b"##\\u005b")?;
    let mut line = Vec::new(alloc);
    push_escaped_json(&mut line, &text)?;
    line.push(b'\n')?;
    Ok(line)
}

fn object_value(alloc: Global, notice: &Notice<'_>) -> Result<Value, AllocError>
    ensures { IfOk result (λ value. view value ≡ object_data (notice_of notice.now)) }
{
    let mut map = Map::new(alloc);
    put_notice(&mut map, alloc, notice)?;
    Ok(Value::Object(map))
}

fn put_notice(
    map: &mut Map<String, Value>,
    alloc: Global,
    notice: &Notice<'_>,
) -> Result<(), AllocError>
    ensures { members_view map.old.entries ≡ no_members
        → OnOk result (object (members_view map.new.entries) ≡ object_data (notice_of notice.now)) }
{
    put_members(map, alloc, notice)?;
    put_other(map, alloc, notice.other)?;
    put_named(map, alloc, notice.named)?;
    put_beside(map, alloc, notice.beside)
}

// Puts the members of each notice.
fn put_members(
    map: &mut Map<String, Value>,
    alloc: Global,
    notice: &Notice<'_>,
) -> Result<(), AllocError>
    ensures { members_view map.old.entries ≡ no_members
        → OnOk result (members_view map.new.entries ≡ members (notice_of notice.now)) }
{
    let place = notice.place;
    put_text(map, alloc, "file", Some(place.file))?;
    put_str(map, alloc, "kind", notice.kind.name())?;
    put_str(map, alloc, "level", notice.kind.level().name())?;
    put(map, alloc, "line", Value::from(place.line as u64))?;
    put_text(map, alloc, "message", Some(notice.message.as_slice()))
}

fn put_str(
    map: &mut Map<String, Value>,
    alloc: Global,
    key: &str,
    text: &str,
) -> Result<(), AllocError>
    ensures { OnOk result (members_view map.new.entries
        ≡ put_data key.now (string text.now) (members_view map.old.entries)) }
{
    put(map, alloc, key, text.to_value(alloc)?)
}

fn put_other(
    map: &mut Map<String, Value>,
    alloc: Global,
    other: Option<Place<'_>>,
) -> Result<(), AllocError>
    ensures { OnOk result (members_view map.new.entries
        ≡ with_other (option_map file_line_of other.entry) (members_view map.old.entries)) }
{
    let Some(other) = other else {
        return Ok(());
    };
    put(map, alloc, "at", place_value(alloc, other)?)
}

fn put_beside(
    map: &mut Map<String, Value>,
    alloc: Global,
    beside: Option<Named<'_>>,
) -> Result<(), AllocError>
    ensures { OnOk result (members_view map.new.entries
        ≡ with_beside (option_map named_of beside.entry) (members_view map.old.entries)) }
{
    let Some(beside) = beside else {
        return Ok(());
    };
    let mut inner = Map::new(alloc);
    put_named(&mut inner, alloc, beside)?;
    put(map, alloc, "beside", Value::Object(inner))
}

// Puts a name, an email and a number into an object, as far as they are there.
fn put_named(
    map: &mut Map<String, Value>,
    alloc: Global,
    named: Named<'_>,
) -> Result<(), AllocError>
    ensures { OnOk result (members_view map.new.entries
        ≡ with_named (named_of named.entry) (members_view map.old.entries)) }
{
    put_text(map, alloc, "name", named.name)?;
    put_text(map, alloc, "email", named.email)?;
    let Some(count) = named.count else {
        return Ok(());
    };
    put(map, alloc, "count", Value::from(count as u64))
}

fn put_text(
    map: &mut Map<String, Value>,
    alloc: Global,
    key: &str,
    text: Option<&[u8]>,
) -> Result<(), AllocError>
    ensures { OnOk result (members_view map.new.entries
        ≡ with_text key.now (option_copied text.entry) (members_view map.old.entries)) }
{
    let Some(text) = text else {
        return Ok(());
    };
    put(map, alloc, key, text_value(alloc, text)?)
}

fn place_value(alloc: Global, place: Place<'_>) -> Result<Value, AllocError>
    ensures { IfOk result (λ value. view value ≡ place_data (file_line_of place.entry)) }
{
    let file = text_value(alloc, place.file)?;
    json!(in alloc; {"file": file, "line": place.line as u64})
}

// A text, or if it is not UTF-8 its bytes in Base64.
#[tactic(auto, using(crate::proofs::Objects::text_if, crate::proofs::Objects::bytes_if))]
fn text_value(alloc: Global, text: &[u8]) -> Result<Value, AllocError>
    ensures { IfOk result (λ value. view value ≡ text_data text.now) }
{
    match str::from_utf8(text) {
        Ok(text) => str_value(alloc, text),
        Err(_) => bytes_value(alloc, text),
    }
}

fn str_value(alloc: Global, text: &str) -> Result<Value, AllocError>
    ensures { IfOk result (λ value. view value ≡ object (member (codes "text") (string text.now) no_members)) }
{
    let text = String::from_str(alloc, text)?;
    json!(in alloc; {"text": text})
}

fn bytes_value(alloc: Global, bytes: &[u8]) -> Result<Value, AllocError>
    ensures { IfOk result (λ value. view value ≡ object (member (codes "bytes")
        (string (encode_of standard bytes.now)) no_members)) }
{
    let encoded = STANDARD.encode(alloc, bytes)?;
    json!(in alloc; {"bytes": encoded})
}
