//! Parses the commands of test scripts, here and in tests/office, tests/tables and tests/wire of the repository, which
//! copy this file. A text that is no command is refused with `BadRequest`.
//!
//! A command is written as its function and its arguments in order, separated by white space. A list of roles is
//! written `a,b,c`, and the empty list `-`. A record of an import is written `ann/clerk`.
use rbac_sets::{Command, Name, NameSet, Refusal};
use std::alloc::Global;

// The command that the text states.
pub(super) fn read_command(alloc: Global, text: &str) -> Result<Command, Refusal> {
    let words: Vec<&str> = text.split_whitespace().collect(alloc)?;
    let command = read_words(alloc, &words);
    drop(words);
    command
}

fn read_words(alloc: Global, words: &[&str]) -> Result<Command, Refusal> {
    match words {
        ["importAssignments", records @ ..] => read_import(alloc, records),
        [function, name] => of_name(function, Name::new(alloc, name)?),
        [function, first, second] => match second.parse::<u32>() {
            Ok(number) => of_number(function, Name::new(alloc, first)?, number),
            Err(_) => read_pair(alloc, function, first, second),
        },
        [function, first, second, third] => match third.parse::<u32>() {
            Ok(number) => read_members(alloc, function, first, second, number),
            Err(_) => read_triple(alloc, function, first, second, third),
        },
        _ => Err(Refusal::BadRequest),
    }
}

// The names of a list, each once.
fn read_names(alloc: Global, text: &str) -> Result<NameSet, Refusal> {
    let mut set = NameSet::new(alloc);
    if text != "-" {
        put_names(alloc, &mut set, text)?;
    }
    Ok(set)
}

fn put_names(alloc: Global, set: &mut NameSet, text: &str) -> Result<(), Refusal> {
    for part in text.split(',') {
        put_name(set, Name::new(alloc, part)?)?;
    }
    Ok(())
}

fn put_name(set: &mut NameSet, name: Name) -> Result<(), Refusal> {
    set.reserve(1)?;
    if set.room() > 0 && !set.contains(&name) {
        set.insert_reserved(name);
    }
    Ok(())
}

fn read_import(alloc: Global, records: &[&str]) -> Result<Command, Refusal> {
    let mut pairs = Vec::new(alloc);
    push_records(alloc, &mut pairs, records)?;
    Ok(Command::ImportAssignments(pairs))
}

fn push_records(
    alloc: Global,
    pairs: &mut Vec<(Name, Name)>,
    records: &[&str],
) -> Result<(), Refusal> {
    for record in records {
        pairs.push(read_record(alloc, record)?)?;
    }
    Ok(())
}

fn read_record(alloc: Global, record: &str) -> Result<(Name, Name), Refusal> {
    let (user, role) = record.split_once('/').ok_or(Refusal::BadRequest)?;
    Ok((Name::new(alloc, user)?, Name::new(alloc, role)?))
}

fn of_name(function: &str, name: Name) -> Result<Command, Refusal> {
    Ok(match function {
        "addUser" => Command::AddUser { user: name },
        "deleteUser" => Command::DeleteUser { user: name },
        "addRole" => Command::AddRole { role: name },
        "deleteRole" => Command::DeleteRole { role: name },
        "addPermObj" => Command::AddPermObj { object: name },
        "deletePermObj" => Command::DeletePermObj { object: name },
        "deleteSsdSet" => Command::DeleteSsdSet { set: name },
        "deleteDsdSet" => Command::DeleteDsdSet { set: name },
        "lockUserAccount" => Command::LockUserAccount { user: name },
        "unlockUserAccount" => Command::UnlockUserAccount { user: name },
        _ => return Err(Refusal::BadRequest),
    })
}

fn read_pair(alloc: Global, function: &str, first: &str, second: &str) -> Result<Command, Refusal> {
    let first = Name::new(alloc, first)?;
    let second = Name::new(alloc, second)?;
    of_pair(function, first, second)
}

fn of_pair(function: &str, first: Name, second: Name) -> Result<Command, Refusal> {
    Ok(match function {
        "addPermission" => Command::AddPermission {
            object: first,
            operation: second,
        },
        "deletePermission" => Command::DeletePermission {
            object: first,
            operation: second,
        },
        "assignUser" => Command::AssignUser {
            user: first,
            role: second,
        },
        "deassignUser" => Command::DeassignUser {
            user: first,
            role: second,
        },
        "deleteSession" => Command::DeleteSession {
            user: first,
            session: second,
        },
        _ => return of_edge(function, first, second),
    })
}

fn of_edge(function: &str, asc: Name, desc: Name) -> Result<Command, Refusal> {
    Ok(match function {
        "addInheritance" => Command::AddInheritance { asc, desc },
        "deleteInheritance" => Command::DeleteInheritance { asc, desc },
        "addAscendant" => Command::AddAscendant { asc, desc },
        "addDescendant" => Command::AddDescendant { asc, desc },
        _ => return of_member(function, asc, desc),
    })
}

fn of_member(function: &str, set: Name, role: Name) -> Result<Command, Refusal> {
    Ok(match function {
        "addSsdRoleMember" => Command::AddSsdRoleMember { set, role },
        "deleteSsdRoleMember" => Command::DeleteSsdRoleMember { set, role },
        "addDsdRoleMember" => Command::AddDsdRoleMember { set, role },
        "deleteDsdRoleMember" => Command::DeleteDsdRoleMember { set, role },
        _ => return Err(Refusal::BadRequest),
    })
}

fn of_number(function: &str, set: Name, cardinality: u32) -> Result<Command, Refusal> {
    Ok(match function {
        "setSsdSetCardinality" => Command::SetSsdSetCardinality { set, cardinality },
        "setDsdSetCardinality" => Command::SetDsdSetCardinality { set, cardinality },
        _ => return Err(Refusal::BadRequest),
    })
}

fn read_members(
    alloc: Global,
    function: &str,
    set: &str,
    roles: &str,
    cardinality: u32,
) -> Result<Command, Refusal> {
    let roles = read_names(alloc, roles)?;
    of_members(function, Name::new(alloc, set)?, roles, cardinality)
}

fn of_members(
    function: &str,
    set: Name,
    roles: NameSet,
    cardinality: u32,
) -> Result<Command, Refusal> {
    Ok(match function {
        "createSsdSet" => Command::CreateSsdSet {
            set,
            roles,
            cardinality,
        },
        "createDsdSet" => Command::CreateDsdSet {
            set,
            roles,
            cardinality,
        },
        _ => return Err(Refusal::BadRequest),
    })
}

fn read_triple(
    alloc: Global,
    function: &str,
    first: &str,
    second: &str,
    third: &str,
) -> Result<Command, Refusal> {
    let name = Name::new(alloc, first)?;
    let last = Name::new(alloc, third)?;
    if function == "createSession" {
        return Ok(Command::CreateSession {
            user: name,
            roles: read_names(alloc, second)?,
            session: last,
        });
    }
    of_triple(function, name, Name::new(alloc, second)?, last)
}

fn of_triple(function: &str, first: Name, second: Name, third: Name) -> Result<Command, Refusal> {
    Ok(match function {
        "grantPermission" => Command::GrantPermission {
            object: first,
            operation: second,
            role: third,
        },
        "revokePermission" => Command::RevokePermission {
            object: first,
            operation: second,
            role: third,
        },
        "addActiveRole" => Command::AddActiveRole {
            user: first,
            session: second,
            role: third,
        },
        "dropActiveRole" => Command::DropActiveRole {
            user: first,
            session: second,
            role: third,
        },
        _ => return Err(Refusal::BadRequest),
    })
}
