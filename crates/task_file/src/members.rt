//! The value of a table at a key, and the keys that a table may have.
ghost use Rattle.std.specs.Prelude.{◌≡◌, option_map, option_copied, find, not, string_bytes};
ghost use Rattle.std.specs.BTreeMap.{keys};
ghost use Rattle.toml.specs.Data.{get_member};
ghost use Rattle.toml.specs.View.{view, table_view};
ghost use Rattle.task_file.specs.Keys.{is_top_key, is_task_key};
ghost use Rattle.task_file.specs.TaskTable.{first_other};

use toml::{Table, Value};

// The value of the table at the key, if any.
#[tactic(auto, using(toml::proofs::Views::table_get))]
pub fn member<'a>(table: &'a Table, key: &str) -> Option<&'a Value>
    ensures { option_map (λ x. view x.now) result ≡ get_member key.now (table_view table.now) }
{
    table.get(key)
}

// The first key of the table, in byte order, that a document may not have; `may_scale` allows `scale`.
pub fn other_top_key(table: &Table, may_scale: bool) -> Option<&String>
    ensures { option_map (λ key. string_bytes key.now) result ≡ first_other (is_top_key may_scale) (table_view table.now) }
{
    find_top_other(table, may_scale)
}

fn find_top_other(table: &Table, may_scale: bool) -> Option<&String>
    ensures { option_copied result ≡ find (λ key. not (is_top_key may_scale (string_bytes key))) (keys table.now) }
{
    table
        .keys()
        .find(|key| !is_top_key(may_scale, key.as_str()))
}

// The first key of the table, in byte order, that a task may not have.
pub fn other_task_key(table: &Table) -> Option<&String>
    ensures { option_map (λ key. string_bytes key.now) result ≡ first_other is_task_key (table_view table.now) }
{
    find_task_other(table)
}

fn find_task_other(table: &Table) -> Option<&String>
    ensures { option_copied result ≡ find (λ key. not (is_task_key (string_bytes key))) (keys table.now) }
{
    table.keys().find(|key| !is_task_key(key.as_str()))
}

fn is_top_key(may_scale: bool, key: &str) -> bool
    ensures { result ≡ is_top_key may_scale key.now }
{
    key == "version" || key == "task" || (may_scale && key == "scale")
}

fn is_task_key(key: &str) -> bool
    ensures { result ≡ is_task_key key.now }
{
    key == "name" || key == "level" || key == "period" || key == "low" || key == "high"
}
