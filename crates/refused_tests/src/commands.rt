//! Commands: after a failed allocation the state is the one before, and the same command is accepted later.
use super::command_parser::read_command;
use admin_mgr::State;
use chunked_sets::{ChunkedGrants, EntrySet};
use rbac_sets::{Command, CountSet, Name, Refusal};
use std::alloc::{AllocError, Global};
use std::process::Abort;
use std::test::Fail;

// Each kind of command at least once. All are accepted, and some end sessions.
const COMMANDS: &[&str] = &[
    "addUser ann",
    "addUser bob",
    "addRole boss",
    "addRole clerk",
    "addRole temp",
    "addInheritance boss clerk",
    "assignUser ann boss",
    "assignUser bob clerk",
    "addPermObj safe",
    "addPermission safe open",
    "addPermission safe view",
    "grantPermission safe open clerk",
    "grantPermission safe view boss",
    "createSsdSet pay clerk,temp 2",
    "createDsdSet till boss,temp 2",
    "createSession ann boss s1",
    "addActiveRole ann s1 clerk",
    "dropActiveRole ann s1 clerk",
    "createSession bob clerk s2",
    "createSession bob - s3",
    "addAscendant chief boss",
    "addDescendant clerk aide",
    "addRole spare",
    "addSsdRoleMember pay spare",
    "setSsdSetCardinality pay 3",
    "setSsdSetCardinality pay 2",
    "deleteSsdRoleMember pay spare",
    "addDsdRoleMember till spare",
    "setDsdSetCardinality till 3",
    "setDsdSetCardinality till 2",
    "deleteDsdRoleMember till spare",
    "importAssignments bob/clerk bob/aide ann/temp bob/spare zed/aide",
    "lockUserAccount bob",
    "unlockUserAccount bob",
    "createSession bob clerk,aide s2",
    "createSession ann - s4",
    "deleteSession ann s4",
    "deassignUser bob clerk",
    "createSession bob aide s2",
    "deleteInheritance clerk aide",
    "deleteInheritance boss clerk",
    "revokePermission safe view boss",
    "deletePermission safe open",
    "deletePermission safe view",
    "deletePermObj safe",
    "deleteRole spare",
    "deassignUser ann boss",
    "deleteDsdSet till",
    "deleteSsdSet pay",
    "deleteRole temp",
    "deleteRole aide",
    "deleteUser bob",
];

// The sets and relations that are not empty after them.
const LEFT: &str = "users ann
roles boss chief clerk
edges chief/boss
closure chief/boss
";

// A function, so that proofs needn't unfold the list.
fn commands() -> &'static [&'static str] {
    COMMANDS
}

fn left() -> &'static str {
    LEFT
}

fn push_name(text: &mut String, name: &Name) -> Result<(), AllocError> {
    text.push_str(" ")?;
    text.push_str(name.as_str())
}

fn push_names(
    text: &mut String,
    about: &str,
    names: &impl EntrySet<Name>,
) -> Result<(), AllocError> {
    let names = names.entries();
    if names.is_empty() {
        return Ok(());
    }
    text.push_str(about)?;
    for name in names.iter() {
        push_name(text, name)?;
    }
    text.push_str("\n")
}

fn push_part(text: &mut String, part: &Name) -> Result<(), AllocError> {
    text.push_str("/")?;
    text.push_str(part.as_str())
}

fn push_pair(text: &mut String, first: &Name, second: &Name) -> Result<(), AllocError> {
    push_name(text, first)?;
    push_part(text, second)
}

fn push_pairs(
    text: &mut String,
    about: &str,
    pairs: &impl EntrySet<(Name, Name)>,
) -> Result<(), AllocError> {
    let pairs = pairs.entries();
    if pairs.is_empty() {
        return Ok(());
    }
    text.push_str(about)?;
    for (first, second) in pairs.iter() {
        push_pair(text, first, second)?;
    }
    text.push_str("\n")
}

fn push_grants(text: &mut String, grants: &ChunkedGrants) -> Result<(), AllocError> {
    if grants.is_empty() {
        return Ok(());
    }
    text.push_str("grants")?;
    for (object, operation, role) in grants.iter() {
        push_pair(text, object, operation)?;
        push_part(text, role)?;
    }
    text.push_str("\n")
}

fn push_count(text: &mut String, set: &Name, count: u32) -> Result<(), AllocError> {
    push_name(text, set)?;
    for _ in 0..count {
        text.push_str("+")?;
    }
    Ok(())
}

fn push_counts(text: &mut String, about: &str, counts: &CountSet) -> Result<(), AllocError> {
    if counts.is_empty() {
        return Ok(());
    }
    text.push_str(about)?;
    for (set, count) in counts.iter() {
        push_count(text, set, *count)?;
    }
    text.push_str("\n")
}

fn push_core(text: &mut String, state: &State) -> Result<(), AllocError> {
    push_names(text, "users", state.users())?;
    push_names(text, "locked", state.locked())?;
    push_names(text, "roles", state.roles())?;
    push_names(text, "objects", state.objects())?;
    push_pairs(text, "permissions", state.permissions())?;
    push_grants(text, state.grants())?;
    push_pairs(text, "assignments", state.assignments())
}

fn push_others(text: &mut String, state: &State) -> Result<(), AllocError> {
    push_pairs(text, "edges", state.order().edges())?;
    push_pairs(text, "closure", state.order().pairs())?;
    push_pairs(text, "ssd members", state.ssd_members())?;
    push_counts(text, "ssd sets", state.ssd_cardinalities())?;
    push_pairs(text, "dsd members", state.dsd_members())?;
    push_counts(text, "dsd sets", state.dsd_cardinalities())?;
    push_pairs(text, "sessions", state.sessions())?;
    push_pairs(text, "active", state.active())
}

// The sets and relations of the state that have an entry, as text.
fn show(alloc: Global, state: &State) -> Result<String, AllocError> {
    let mut text = String::new(alloc);
    push_core(&mut text, state)?;
    push_others(&mut text, state)?;
    Ok(text)
}

// The same, with a second attempt if an allocation fails.
fn show_again(alloc: Global, state: &State) -> Result<String, AllocError> {
    match show(alloc, state) {
        Ok(text) => Ok(text),
        Err(_) => show(alloc, state),
    }
}

// Plans a command, makes room for the plan, and commits it.
fn apply(alloc: Global, state: &mut State, command: &Command) -> Result<(), Refusal> {
    let plan = state.plan(alloc, command)?;
    state.make_room(&plan)?;
    state.commit(plan);
    Ok(())
}

// Parses a command, and applies it.
fn obey(alloc: Global, state: &mut State, text: &str) -> Result<(), Refusal> {
    let command = read_command(alloc, text)?;
    let done = apply(alloc, state, &command);
    drop(command);
    done
}

// Applies a command. If an allocation fails, nothing may have changed; then other commands are applied, and this one
// again.
fn insist(rt: &impl Abort, alloc: Global, state: &mut State, text: &str) -> Result<(), Fail> {
    let before = show_again(alloc, state)?;
    match obey(alloc, state, text) {
        Ok(()) => return Ok(()),
        Err(refusal) => assert!(rt; matches!(refusal, Refusal::Memory), "{text}"),
    }
    assert_eq!(rt; show_again(alloc, state)?, before, "{text}");
    for other in ["addUser other", "deleteUser other", text] {
        assert!(rt; obey(alloc, state, other).is_ok(), "{other} before {text}");
    }
    Ok(())
}

// Applies all commands.
fn insist_on_all(rt: &impl Abort, alloc: Global, state: &mut State) -> Result<(), Fail> {
    for text in commands() {
        insist(rt, alloc, state, text)?;
    }
    Ok(())
}

// Whether the state is the one expected after all commands.
fn is_left(alloc: Global, state: &State) -> Result<bool, Fail> {
    let text = show_again(alloc, state)?;
    Ok(text.as_str() == left())
}

// Applies all commands, and returns whether the state is then as expected.
fn leaves_what_it_should(rt: &impl Abort, alloc: Global, state: &mut State) -> Result<bool, Fail> {
    insist_on_all(rt, alloc, state)?;
    is_left(alloc, state)
}

#[test]
fn refused_memory_changes_nothing(rt: HostRuntime) -> Result<(), Fail> {
    let alloc = rt.alloc();
    let mut state = State::empty(alloc);
    let told = leaves_what_it_should(&rt, alloc, &mut state);
    drop(state);
    assert!(rt; told?);
    Ok(())
}
