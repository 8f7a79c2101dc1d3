//! What holds of the sets and relations, however they are stored.
ghost use Rattle.admin_mgr.specs.Laws.{SubsetForm, RowsDetermine, AcceptedIsGood, StaticTest, DynamicTest, AuthorizedRolesAreThere, SessionRolesAreThere, SessionsGiveUserAccess, UserAccessIsBySessions, ImportTwice};
ghost use Rattle.admin_mgr.specs.CommandContent.{CommandsDependOnContent};
ghost use Rattle.admin_mgr.specs.RowChecks.{GoodRowsAreRead};
ghost use Rattle.admin_mgr.specs.CommandLaws.{VerdictsRefuseCommands, AssignedByCommand, GrantedByCommand, VersionStays};
ghost use Rattle.admin_mgr.specs.Removals.{RemovalsGiveNoSessionAccess, RemovalsGiveNoUserAccess};
ghost use Rattle.admin_mgr.specs.StateNames.{NamedTurns};
ghost use Rattle.admin_mgr.specs.RowsAfter.{RowsFollow};
ghost use Rattle.admin_mgr.specs.StateLaws.{EmptyIsGood, EmptyHasNoRow, MigratedIsGood, GoodRowsAreReadable};

/// Static separation of duty, defined here by counting each user's roles, is that of the standard: if a set
/// has cardinality n, any n or more of its roles have no authorized user in common.
pub fn subset_form()
    ensures { SubsetForm }
{}

/// States of one version whose rows are the same are equal.
#[tactic(auto, using(crate::proofs::PlanRows::RowLaws::rows_determine))]
pub fn rows_determine()
    ensures { RowsDetermine }
{}

/// Any accepted command leads from a good state to a good state.
pub fn accepted_good()
    ensures { AcceptedIsGood }
{}

/// If the relations are well formed, the test of a verdict names no static separation of duty set if and
/// only if none is violated.
#[tactic(auto, using(crate::proofs::Verdicts::SeparationLaws::static_test))]
pub fn static_test()
    ensures { StaticTest }
{}

/// The test of a verdict names no dynamic separation of duty set if and only if none is violated.
#[tactic(auto, using(crate::proofs::Verdicts::SeparationLaws::dynamic_test))]
pub fn dynamic_test()
    ensures { DynamicTest }
{}

/// If the relations are well formed, `authorized_roles` and `session_roles`, which have only roles of the
/// state, leave out none for which the user is authorized and none that the session has.
#[tactic(auto, using(crate::proofs::Verdicts::RoleLaws::authorized_roles_are_there, crate::proofs::Verdicts::RoleLaws::session_roles_are_there))]
pub fn reached_roles_are_there()
    ensures authorized { AuthorizedRolesAreThere }
    ensures session { SessionRolesAreThere }
{}

/// The decision about a user is exact: it is yes exactly if the user may create a session that has access, as
/// long as there may be one more session, and no session has access that its user couldn't have.
#[tactic(auto, using(crate::proofs::Verdicts::UserAccessLaws::user_access_by_sessions, crate::proofs::Verdicts::UserAccessLaws::access_of_session))]
pub fn user_access()
    ensures created { UserAccessIsBySessions }
    ensures there { SessionsGiveUserAccess }
{}

/// An import of assignments that is repeated changes nothing, whatever the state was: it assigns no record,
/// counts those that were assigned as assigned before, and refuses the same records as the first time. Their
/// codes are the same, except that 24 StaticSeparation may become 32 TooMany, since there may be too many
/// assignments by then.
pub fn import_twice()
    ensures { ImportTwice }
{}

/// `State::of_rows` refuses the rows of a good state, each once and in any order, by 40 Memory only.
#[tactic(auto, using(crate::proofs::StoredRows::AcceptLaws::good_rows_are_read))]
pub fn good_rows_are_read()
    ensures { GoodRowsAreRead }
{}

/// Each row of a good state is one that its version allows, and no two rows have the same key.
pub fn good_rows_are_readable()
    ensures { GoodRowsAreReadable }
{}

/// The empty state of either version is good, and has no row.
pub fn empty_states()
    ensures good { EmptyIsGood }
    ensures rows { EmptyHasNoRow }
{}

/// A good state of version 1 that is migrated to version 2 is good.
#[tactic(auto, using(crate::proofs::StateAfter::MigratedLaws::migrated_good))]
pub fn migrated_good()
    ensures { MigratedIsGood }
{}

/// Changes that turn one state into another also turn a list of the rows of the one, each once, into such a
/// list of the other.
pub fn rows_follow()
    ensures { RowsFollow }
{}

/// Changes whose names are valid lead from a state whose names are valid to another such state.
pub fn named_turns()
    ensures { NamedTurns }
{}

/// The verdict on a command, the state after it and its report depend only on what it asks for, and not on
/// the room that its sets and its list have.
pub fn commands_go_by_asked()
    ensures { CommandsDependOnContent }
{}

/// The code of a refusal by a verdict is from 2 to 32, 37 UserLocked or 51 Version, and so never 40 Memory,
/// 41 Store or 42 Closed.
#[tactic(auto, using(crate::proofs::Verdicts::RefusingLaws::verdicts_refuse_commands))]
pub fn verdicts_refuse_commands()
    ensures { VerdictsRefuseCommands }
{}

/// Only assignUser and an import add to UA, only grantPermission adds to PA, and no command changes the
/// version.
#[tactic(auto, using(crate::proofs::StateAfter::EffectLaws::assigned_by_command, crate::proofs::StateAfter::EffectLaws::granted_by_command, crate::proofs::StateAfter::EffectLaws::version_stays))]
pub fn effects()
    ensures assignments { AssignedByCommand }
    ensures grants { GrantedByCommand }
    ensures version { VersionStays }
{}

/// No removal gives anybody access, whatever the state was. A session that has access after the command had
/// it before, also if the command removes an inheritance, a dynamic separation of duty set or one of its
/// roles, or sets its cardinality. A user who could have access after the command could have it before; for
/// users these four commands are exceptions: after them the user may have a role alone that was, with its
/// juniors, too many members of a dynamic set.
#[tactic(auto, using(crate::proofs::StateAfter::LessAccess::no_session_access, crate::proofs::StateAfter::LessAccess::no_user_access))]
pub fn removals_only_remove()
    ensures session { RemovalsGiveNoSessionAccess }
    ensures user { RemovalsGiveNoUserAccess }
{}
