// From a replay to its text.
ghost use Rattle.std.specs.Prelude.{◌≡◌, ◌<◌, [], length, map, codes, IfOk, OnOk, string_bytes};
ghost use Rattle.serde_json.specs.Data.{string, object, no_members, put as with_member};
ghost use Rattle.serde_json.specs.View.{view, members_view};
ghost use Rattle.serde_json.specs.Written.{compact_text};
ghost use Rattle.history_text.specs.Limits.{text_limit};
ghost use Rattle.history_text.specs.Texts.{number_data, list_data};
ghost use Rattle.plan_text.specs.Scripts.{scripts_data};
ghost use Rattle.plan_text.specs.ReplayTexts.{first_members, item_data, rows_data, variant_name, SpellsReplay};
ghost use Rattle.plan_text.specs.ReplayViews.{shown};
ghost use Rattle.plan_text.specs.WrittenReplays.{AreHeld, is_plain, written_data};

use crate::replay::Replay;
use crate::write_parts::{rows_value, schedule_value, variant_value};
use crate::write_plans::{are_plain_scripts, scripts_value};
use art_rows::Variant;
use events::Memory;
use history_text::pairs_value;
use serde_json::{Map, Value, put};
use std::alloc::{AllocError, Global};

/// Returns the text of a replay in the compact form: no spaces, members by rising bytes, numbers in plain decimal. It is of
/// version 1 if the replay has neither a starting pair nor a replace, else of version 2. It reads back as the same replay. It
/// is shorter than a text may be, so a line feed fits after it.
pub fn write_replay(alloc: Global, replay: &Replay) -> Result<String, Memory>
    ensures compact { IfOk result (λ text. string_bytes text ≡ compact_text (written_data (shown replay.now))) }
    ensures again { AreHeld replay.now.schedule.items
        → IfOk result (λ text. SpellsReplay (string_bytes text) (shown replay.now)) }
    ensures short { AreHeld replay.now.schedule.items → IfOk result (λ text. length (string_bytes text) < text_limit) }
{
    let value = replay_value(alloc, replay)?;
    Ok(value.to_string(alloc)?)
}

/// The JSON value of a replay.
fn replay_value(alloc: Global, replay: &Replay) -> Result<Value, AllocError>
    ensures { IfOk result (λ value. view value ≡ written_data (shown replay.now)) }
{
    let mut members = Map::new(alloc);
    put_replay(alloc, &mut members, replay)?;
    Ok(Value::Object(members))
}

/// Puts what is written of a replay into an object without members.
fn put_replay(
    alloc: Global,
    members: &mut Map<String, Value>,
    replay: &Replay,
) -> Result<(), AllocError>
    requires { members.old.entries ≡ [] }
    ensures { OnOk result (object (members_view members.new.entries) ≡ written_data (shown replay.now)) }
{
    put_run(alloc, members, replay)?;
    if is_plain(replay) {
        return put_last(alloc, members, replay.variant, 1);
    }
    put(members, alloc, "start", pairs_value(alloc, &replay.start)?)?;
    put_last(alloc, members, replay.variant, 2)
}

/// Puts the first four members into an object without members.
fn put_run(
    alloc: Global,
    members: &mut Map<String, Value>,
    replay: &Replay,
) -> Result<(), AllocError>
    requires { members.old.entries ≡ [] }
    ensures { OnOk result (members_view members.new.entries ≡ first_members (number_data replay.now.limit)
        (rows_data replay.now.shape) (list_data (map item_data replay.now.schedule.items))
        (scripts_data (map (λ script. script.items) replay.now.scripts.items)) no_members) }
{
    put(members, alloc, "limit", Value::from(replay.limit))?;
    put(members, alloc, "rows", rows_value(alloc, replay.shape)?)?;
    put(
        members,
        alloc,
        "schedule",
        schedule_value(alloc, &replay.schedule)?,
    )?;
    put(
        members,
        alloc,
        "scripts",
        scripts_value(alloc, &replay.scripts)?,
    )
}

/// Puts the variant and the version.
fn put_last(
    alloc: Global,
    members: &mut Map<String, Value>,
    variant: Variant,
    version: u64,
) -> Result<(), AllocError>
    ensures { OnOk result (members_view members.new.entries
        ≡ with_member (codes "version") (number_data version)
        (with_member (codes "variant") (string (variant_name variant)) (members_view members.old.entries))) }
{
    put(members, alloc, "variant", variant_value(alloc, variant)?)?;
    put(members, alloc, "version", Value::from(version))
}

/// Whether a replay has neither a starting pair nor a replace.
fn is_plain(replay: &Replay) -> bool
    ensures { result ≡ is_plain (shown replay.now) }
{
    replay.start.is_empty() && are_plain_scripts(&replay.scripts)
}
