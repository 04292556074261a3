//! Task files, printed.
ghost use Rattle.std.specs.Prelude.{◌≡◌, pos, Ok, IfOk, string_bytes};
ghost use Rattle.toml.specs.Data.{string, integer};
ghost use Rattle.toml.specs.View.{view, table_view, array_view, items_of};
ghost use Rattle.mc_task.specs.TaskSet.{IsScale, IsSet};
ghost use Rattle.task_file.specs.Keys.{key_bytes};
ghost use Rattle.task_file.specs.TaskTable.{level_bytes};
ghost use Rattle.task_file.specs.TaskFile.{task_file};
ghost use Rattle.task_file.specs.Printed.{put_member, common_members, task_members, task_tables, scale_array, tasks_and_version, file_members};

use crate::KeyName;
use mc_task::{Level, Memory, Name, Scale, Task, TaskSet};
use std::alloc::{AllocError, Global};
use toml::value::Array;
use toml::{Table, Value};

/// Prints the set as a task file of version 2. If memory suffices, `read_tasks` of it returns an equal set.
///
/// The only error is `Memory`, if an allocation fails.
pub fn print_tasks(alloc: Global, set: &TaskSet) -> Result<Vec<u8>, Memory>
    ensures { IfOk result (λ bytes. task_file bytes.items ≡ Ok set.now) }
{
    let table = file_table(alloc, set)?;
    match toml::table_to_string(alloc, &table) {
        Ok(text) => Ok(text.into_bytes()),
        Err(_) => Err(Memory),
    }
}

// The document: the version, the tasks, and the scale if the set has one.
fn file_table(alloc: Global, set: &TaskSet) -> Result<Table, AllocError>
    ensures tree { IfOk result (λ table. table_view table ≡ file_members set.now) }
    ensures set { IsSet set.now }
{
    let tasks = set.as_slice();
    let scale = set.scale();
    let mut table = tasks_and_version(alloc, tasks)?;
    match scale {
        Some(scale) => {
            put(
                alloc,
                &mut table,
                KeyName::Scale,
                scale_value(alloc, scale)?,
            )?;
            Ok(table)
        }
        None => Ok(table),
    }
}

fn tasks_and_version(alloc: Global, tasks: &[Task]) -> Result<Table, AllocError>
    ensures { IfOk result (λ table. table_view table ≡ tasks_and_version tasks.now) }
{
    let mut table = Table::new(alloc);
    put(alloc, &mut table, KeyName::Version, Value::from(2u32))?;
    let items = task_array(alloc, tasks)?;
    put(alloc, &mut table, KeyName::Task, Value::from(items))?;
    Ok(table)
}

// An array of the scale's two numbers.
fn scale_value(alloc: Global, scale: Scale) -> Result<Value, AllocError>
    requires { IsScale scale }
    ensures { IfOk result (λ v. view v ≡ scale_array scale) }
{
    let mut numbers = Vec::new(alloc);
    numbers.push(Value::from(scale.p as u32))?;
    numbers.push(Value::from(scale.q as u32))?;
    Ok(Value::from(numbers))
}

// The tasks in order, each as a table.
fn task_array(alloc: Global, tasks: &[Task]) -> Result<Array, AllocError>
    ensures { IfOk result (λ items. array_view items ≡ items_of (task_tables tasks.now)) }
{
    let mut items = Vec::new(alloc);
    for task in tasks {
        let table = task_table(alloc, task)?;
        items.push(Value::from(table))?;
    }
    Ok(items)
}

fn task_table(alloc: Global, task: &Task) -> Result<Table, AllocError>
    ensures { IfOk result (λ table. table_view table ≡ task_members task.now) }
{
    let mut table = common_table(alloc, task)?;
    match task.level {
        Level::Low => Ok(table),
        Level::High => {
            put(alloc, &mut table, KeyName::High, Value::from(task.high))?;
            Ok(table)
        }
    }
}

// The members that a task of either level has.
fn common_table(alloc: Global, task: &Task) -> Result<Table, AllocError>
    ensures { IfOk result (λ table. table_view table ≡ common_members task.now) }
{
    let mut table = Table::new(alloc);
    put(
        alloc,
        &mut table,
        KeyName::Name,
        name_value(alloc, &task.name)?,
    )?;
    put(
        alloc,
        &mut table,
        KeyName::Level,
        level_value(alloc, task.level)?,
    )?;
    put(alloc, &mut table, KeyName::Period, Value::from(task.period))?;
    put(alloc, &mut table, KeyName::Low, Value::from(task.low))?;
    Ok(table)
}

// Puts the value at the key.
fn put(alloc: Global, table: &mut Table, key: KeyName, value: Value) -> Result<(), AllocError>
    ensures { IfOk result (λ _. table_view table.new ≡ put_member (key_bytes key) (view value) (table_view table.old)) }
{
    let key = String::from_str(alloc, key.text())?;
    table.insert(key, value)?;
    Ok(())
}

fn name_value(alloc: Global, name: &Name) -> Result<Value, AllocError>
    ensures { IfOk result (λ v. view v ≡ string name.now) }
{
    let text = String::from_utf8_lossy(alloc, name.bytes())?;
    Ok(Value::from(text))
}

fn level_value(alloc: Global, level: Level) -> Result<Value, AllocError>
    ensures { IfOk result (λ v. view v ≡ string (level_bytes level)) }
{
    match level {
        Level::Low => Value::string(alloc, "low"),
        Level::High => Value::string(alloc, "high"),
    }
}
