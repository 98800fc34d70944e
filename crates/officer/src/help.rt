//! What the program says of itself.

/// The forms of all command lines, the limits, and the statuses.
pub const HELP: &str =
    "officer - apply rules to a protection graph, and say who can come to hold what

  officer                                  apply, from standard input
  officer check G                          the graph in canonical form
  officer apply G RULES                    rules in turn, and the graph then
  officer islands G                        whom chains of t and g join
  officer share G RIGHTS X Y               if X can come to have RIGHTS over Y
  officer derive G RIGHTS X Y              rules that give X RIGHTS over Y
  officer table G RIGHT [--workers N]      who can come to have RIGHT over whom
  officer who G RIGHTS Y                   who can come to have RIGHTS over Y
  officer reach G X                        what X can come to have, over whom
  officer verify G POLICY [--why]          if the graph keeps a policy
  officer cut G RIGHT X Y [--keep A B ..]  what has to go so that X never has it
  officer run G SCRIPT                     sessions of a script, event by event
  officer race G SCRIPT                    the same, each seat in a thread
  officer --help, officer -h               this text
  officer --version, officer -V            the name and the version

G, RULES, POLICY and SCRIPT name files; X, Y, A and B are vertices. RIGHT is one
of the letters t g r w e a d, for take, grant, read, write, execute, append and
delete. RIGHTS are one of them or more, or - for none.

Limits: an input 64 MiB, a line 256 bytes, a name 16; a graph text 4,096
vertices, or 1,024 where no line says version 2; 131,072 rules, 65,536 events,
64 seats, 4,096 cells, 65,536 lines of a policy; 16 workers, 64 kept edges.

Status: 0 where the report is whole, be it yes or no; 1 where it says what was
refused, that a policy is broken or that there is no cut; 2 for a bad command
line; 3 where a file, memory or the output failed.

The manual page officer(1) says the rest, and docs/TEXTS.md has the formats.
";

/// The name and the version.
pub const VERSION: &str = "officer 1.0.0\n";
