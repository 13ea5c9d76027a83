//! How the program ends.
ghost use Rattle.std.specs.Prelude.{◌≡◌};
ghost use Rattle.xet_room.specs.Texts.{line, number_of};
ghost use Rattle.xet_room.specs.declared.status.Status.TheVariants.{BadSettings};

use xet_error::Setting;

// The line of the setting that fails first.
fn setting_line(setting: Setting) -> &'static [u8]
    ensures { result.now ≡ line (BadSettings setting) }
{
    match setting {
        Setting::NoConnection => b"error settings 1\n",
        Setting::NoTries => b"error settings 2\n",
        Setting::LeastZero => b"error settings 3\n",
        Setting::GreatestBelowLeast => b"error settings 4\n",
    }
}

/// How the program ends.
#[derive(Clone, Copy, PartialEq, Eq, Debug)]
pub enum Status {
    /// What the words ask for was printed.
    Done,
    /// The words don't read.
    BadWords,
    /// The input is no document of a valid store; for `audit` it lists none, valid or not.
    BadStore,
    /// Chunks stand, or would stand, under a hash that isn't theirs. The command prints the line with it.
    BadHash,
    /// A line of the script doesn't read. The line is printed by the command.
    BadScript,
    /// The range isn't empty, and the store has no such file.
    NotFound,
    /// Neither store has a file that is to be copied. The command prints the line with its hash.
    NoSource,
    /// The input failed.
    ReadFault,
    /// The output failed.
    WriteFault,
    /// An allocation was refused.
    NoMemory,
    /// This setting of the run fails first.
    BadSettings(Setting),
    /// The input has more bytes than the limit.
    TooLong,
    /// The file ends inside a part that is asked for, of which it has so many bytes. The command prints the line.
    Short(u64),
    /// So many things are wrong with the store. The command prints the lines.
    Faulty(u64),
    /// A line of the session is too long. The command prints the last reply.
    LineTooLong,
    /// A block that a tap handed on failed the test of this number. The line is printed by the command.
    BadBlock(u8),
}

impl Status {
    /// The exit status.
    pub fn number(self) -> u8
        ensures { result ≡ number_of self }
    {
        match self {
            Status::Done => 0,
            Status::BadWords => 1,
            Status::BadStore => 2,
            Status::BadHash => 2,
            Status::BadScript => 2,
            Status::NotFound => 3,
            Status::NoSource => 3,
            Status::ReadFault => 4,
            Status::WriteFault => 5,
            Status::NoMemory => 6,
            Status::BadSettings(_) => 7,
            Status::TooLong => 8,
            Status::Short(_) => 9,
            Status::Faulty(_) => 10,
            Status::LineTooLong => 11,
            Status::BadBlock(_) => 12,
        }
    }

    /// The last line with its end, of a status whose line is the same each time. Others have none here: the command
    /// prints theirs, and a write fault has none at all.
    pub fn line(self) -> &'static [u8]
        ensures { result.now ≡ line self }
    {
        match self {
            Status::Done => b"",
            Status::BadWords => b"error words\n",
            Status::BadStore => b"error store\n",
            Status::BadHash => b"",
            Status::BadScript => b"error script\n",
            Status::NotFound => b"error file not found\n",
            Status::NoSource => b"",
            Status::ReadFault => b"error read\n",
            Status::WriteFault => b"",
            Status::NoMemory => b"error memory\n",
            Status::BadSettings(setting) => setting_line(setting),
            Status::TooLong => b"error input\n",
            Status::Short(_) => b"",
            Status::Faulty(_) => b"",
            Status::LineTooLong => b"",
            Status::BadBlock(_) => b"",
        }
    }
}
