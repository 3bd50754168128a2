//! What the program says of a run that wrote all its files: on standard output how many commands were performed, on standard
//! error how many of them were refused, where any was.

ghost use Rattle.std.specs.Prelude.{OnOk};
ghost use Rattle.std.specs.Io.KnownBytes.{Appends};
ghost use Rattle.server_program.specs.Endings.{count_line, refused_part, refused_parts, refused_text};

use office_run::CommandCounts;
use program_frame::Report;
use std::io;
use std::io::Write;

/// What a run that wrote all its files reports.
#[derive(Debug, PartialEq, Eq, Drop)]
pub struct Served {
    /// How many commands were performed, and how many of them were refused.
    pub counts: CommandCounts,
}

// Prints how many commands were performed: `station_server: N commands` and LF. Takes no memory. An error where a
// write fails.
fn print_count<W: Write>(out: &mut W, count: u64) -> io::Result<()>
    ensures text { OnOk result (Appends (W.contents out.old) (W.contents out.new) (count_line count)) }
{
    write!(out, "station_server: {count} commands\n")
}

// Prints how many of a station's commands were refused, where any was.
fn print_station<W: Write>(err: &mut W, station: u64, refused: u64) -> io::Result<()>
    ensures text { OnOk result (Appends (W.contents err.old) (W.contents err.new) (refused_part station refused)) }
{
    if refused == 0 {
        return Ok(());
    }
    write!(err, " STATION{station}.TXT {refused}")
}

// Prints the same of each station, the first of which is 1.
fn print_stations<W: Write>(err: &mut W, refused: &[u64]) -> io::Result<()>
    ensures text { OnOk result (Appends (W.contents err.old) (W.contents err.new) (refused_parts 1 refused.now)) }
{
    for index in 0..refused.len() {
        print_station(err, index as u64 + 1, refused[index])?;
    }
    Ok(())
}

// Prints how many commands were refused, and of which stations, where any was: `station_server: 3 refused:`, of each of
// these ` STATION1.TXT 3`, and LF. Takes no memory. An error where a write fails.
fn print_refused<W: Write>(err: &mut W, counts: &CommandCounts) -> io::Result<()>
    ensures text { OnOk result (Appends (W.contents err.old) (W.contents err.new) (refused_text counts.now)) }
{
    if counts.refused == 0 {
        return Ok(());
    }
    let refused = counts.refused;
    write!(err, "station_server: {refused} refused:")?;
    print_stations(err, &counts.refused_by_station)?;
    err.write_all(b"\n")?;
    Ok(())
}

impl Report for Served {
    ghost use Rattle.std.specs.Prelude.{◌≡◌};
    ghost use Rattle.std.specs.Io.KnownBytes.{Appends};
    ghost use Rattle.server_program.specs.Endings.{count_line, refused_text};

    ghost has_status = { λ _ status. status ≡ 0 };

    ghost prints = { λ served old new. Appends old new (count_line served.counts.all) };

    ghost aside = { λ served. refused_text served.counts };

    fn exit_status(&self) -> u8 {
        0
    }

    fn print<W: Write>(&self, out: &mut W) -> io::Result<()> {
        print_count(out, self.counts.all)
    }

    fn print_aside<W: Write>(&self, err: &mut W) -> io::Result<()> {
        print_refused(err, &self.counts)
    }
}
