//! What the program itself prints: its version and its help, in lines of at most 80 columns.

/// The version, as `--version` prints it.
pub const VERSION: &str = "borgferry 0.1.0 for x86-64-v2\n";

/// What stands in front of the commands in the help.
pub const HEAD: &str = "\
borgferry reads a BorgBackup 1.2 repository, the source, whose archives were
made with --compression none, and makes another, the target, or copies archives
into it, or into a folder as files. Only init, transfer, delete, tag-archives
and compact write the target, nothing the source.

usage: borgferry SOURCE TARGET COMMAND ..
       borgferry COMMAND --help
       borgferry --help, help or -h
       borgferry --version

SOURCE and TARGET are folders of repositories; the word - stands for no folder.
Of restore, TARGET is a folder that is no repository.

commands:
";

/// The commands, in the order of the help.
pub const COMMANDS: [&str; 14] = [
    "keys",
    "key",
    "list",
    "extract",
    "check",
    "restore",
    "init",
    "plan",
    "transfer",
    "delete",
    "tag-archives",
    "compact",
    "make-key",
    "drill",
];

/// What stands behind the commands in the help.
pub const TAIL: &str = "
variables:
  BORG_OTHER_PASSPHRASE     the passphrase of SOURCE
  BORG_PASSPHRASE           the passphrase of TARGET
  BORG_OTHER_PASSPHRASE_FD  the number of a stream that has it, where that one
  BORG_PASSPHRASE_FD        above is absent; with none of them it is empty
  BORG_OTHER_PASSCOMMAND    a program that prints it, which isn't started here:
  BORG_PASSCOMMAND          borgferry-passcommand does that
  BORG_OTHER_KEY_FILE       the key file of SOURCE, none where empty
  BORG_KEY_FILE             the key file of TARGET, none where empty

A refusal is one line on standard output, and one in plain words on standard
error, which says what it means and what to do.

status:
  0   done
  1   check: the source opens, and a chunk or an archive in it doesn't read
  2   the words are no command, or a word or a variable isn't UTF-8
  3   memory ran out
  4   the source can't be read
  5   the target can't be read or written
  6   the system gives no random bytes
  7   standard output can't be written
  8   the source is refused
  9   the target is refused
  10  the target has another archive of the name
  11  no archive has the name, or no item with content has the path
  12  a limit of the target is met
  13  restore: the folder can't be written
  14  restore: the folder isn't empty
  16  a key file can't be read
  17  withheld: something of yours would be lost, and nothing was written
";

/// The lines of a command in the help, `None` where there is no such command.
pub fn lines_of(command: &str) -> Option<&'static str> {
    match command {
        "keys" => Some(KEYS),
        "key" => Some(KEY),
        "list" => Some(LIST),
        "extract" => Some(EXTRACT),
        "check" => Some(CHECK),
        "restore" => Some(RESTORE),
        "init" => Some(INIT),
        "plan" => Some(PLAN),
        "transfer" => Some(TRANSFER),
        "delete" => Some(DELETE),
        "tag-archives" => Some(TAG_ARCHIVES),
        "compact" => Some(COMPACT),
        "make-key" => Some(MAKE_KEY),
        "drill" => Some(DRILL),
        _ => None,
    }
}

const KEYS: &str = "  keys
      prints each live key of the source's committed log and the size of its
      encrypted object; needs no passphrase
";

const KEY: &str = "  key
      opens the source's key with its passphrase, and prints the repository's
      id and the iterations
";

const LIST: &str = "  list
      prints the id, the time and the name of each archive of the source
  list NAME
      prints the kind, the size and the path of each item of an archive
";

const EXTRACT: &str = "  extract NAME PATH
      writes the content of the first item of an archive that has content and
      this path; a link has no content of its own
";

const CHECK: &str = "  check
      opens every live chunk and reads every archive, and prints their numbers
      or the first fault
";

const RESTORE: &str = "  restore NAME
      makes the files, folders and links of an archive of the source in the
      folder that stands in the place of TARGET, which is empty or isn't there,
      and prints their numbers; owners, modes, times and attributes aren't set
";

const INIT: &str = "  init [--iterations N] [--timestamp T]
      makes a repository in the target, with the key of the target's key file
      where there is one, and prints its id
      N: the iterations that seal a key, 1 to 10000000, else 100000
      T: the timestamp of the new manifest, as 2026-12-31T23:59:59.000000 in UTC
";

const TRANSFER: &str = "  transfer [--block B] [--checkpoint N] [--timestamp T] [NAME ..]
      copies these archives of the source, or all, into the target, compares
      those that it has, and prints a line for each and one of the numbers
      B: the bytes of a chunk, 64 to 8388608, else 2097152
      N: the chunks after which what is done is committed, 1 to 1000000,
         else 1024
      T: the timestamp of the new manifest, else the later of the two
";

const PLAN: &str = "  plan [--block B] [NAME ..]
      prints how many chunks transfer would put of these archives, or of all,
      their bytes, and how many chunks of item lists; writes nothing
      B: the bytes of a chunk, as in transfer
";

const DELETE: &str = "  delete [--timestamp T] NAME
      takes an archive out of the target, with the chunks that no other archive
      uses, and prints how many these were; compact gives back their space
      T: the timestamp of the new manifest, else that of the old one
";

const TAG_ARCHIVES: &str = "  tag-archives [--timestamp T]
      writes the record of each archive of the target that has no
      authentication tag again with one, and prints how many these were
      T: the timestamp of the new manifest, else that of the old one
";

const COMPACT: &str = "  compact [--threshold P]
      writes what is in use in segments of the target again and removes these,
      where P hundredths of one or more are unused; prints how many it removed
      P: 0 to 100, else 10
";

const MAKE_KEY: &str = "  make-key [--iterations N]
      prints the text of a new key file, sealed with the target's passphrase
      N: the iterations that seal it, 1 to 10000000, else 100000
";

const DRILL: &str = "  drill N
      copies a source of N archives, which it makes itself, into a target of its
      own in memory and checks that; uses neither folder, and prints one line
      N: 1 to 64
";
