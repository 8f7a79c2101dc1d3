//! Laws of the definitions alone: each is the contract of a function that does nothing.
ghost use Rattle.std.specs.Prelude.{◌≡◌, codes};
ghost use Rattle.role_json.specs.Answer.{done_text, refusal_text};
ghost use Rattle.role_wire.specs.AnswerTexts.{AnswersAreLines, ImportText, NamesAreQuoted};
ghost use Rattle.role_wire.specs.Lines.{SplitsByPieces};
ghost use Rattle.role_wire.specs.Reply.{RepliesOnce};
ghost use Rattle.role_wire.specs.LineCommands.{CommandsRunAsked, LinesHaveCommands, LinesRunAsked, LinesRunCommands, LinesReportVerdicts};

use rbac_sets::Refusal;

/// An input may arrive in pieces of any size. Its lines are those that end in the first piece, and then the
/// lines of what follows: the bytes of the first piece after its last LF, and the rest of the input.
pub fn splits_by_pieces()
    ensures { SplitsByPieces }
{}

/// In each state, a request whose head is within the limits has only one reply: the status, the body, the
/// state after it, and how many bytes after the head belong to the request.
pub fn replies_once()
    ensures { RepliesOnce }
{}

/// Lines do what the commands do that they ask for, in order: the state after the lines is the state after
/// the commands, and the lines that ask for a command are answered with the verdicts on these commands. This
/// holds for any commands that ask for the same, whatever the capacity of their sets and lists. Such commands
/// exist if the lines ask for no import. Imports included, the state after lines is the state after all that
/// they ask for, in order, and the same holds for commands.
pub fn lines_run_commands()
    ensures commands { LinesHaveCommands }
    ensures state { LinesRunCommands }
    ensures answers { LinesReportVerdicts }
    ensures asked { LinesRunAsked }
    ensures same { CommandsRunAsked }
{}

/// Each answer is one line: the output for an input, split at each LF, gives the answers again. So a client
/// may read an answer up to the next LF.
pub fn answers_are_lines()
    ensures { AnswersAreLines }
{}

/// Answer texts in full, one each: of a command that was done, of an import, of a refusal. In the text of a
/// name only `"` and `\` are escaped, each by one `\` before it.
pub fn answer_texts()
    ensures done { done_text ≡ codes "{\"ok\":true}" }
    ensures import { ImportText }
    ensures refusal { refusal_text Refusal.NoUser ≡ codes "{\"code\":2,\"error\":\"NoUser\"}" }
    ensures names { NamesAreQuoted }
{}
