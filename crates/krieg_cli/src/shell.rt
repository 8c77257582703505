ghost use Rattle.std.specs.Prelude.{◌≡◌, ℕ, List, [], IfSome, map, option_map, string_bytes, None, codes};
ghost use Rattle.krieg_args.specs.Command.{command_of};
ghost use Rattle.krieg_cli.specs.Top.{Gets};
ghost use Rattle.krieg_cli.specs.World.{stream, world};
ghost use Rattle.krieg_seats.specs.Accounts.{Account, new_account};
ghost use Rattle.krieg_seats.specs.Streams.{stream_account};
ghost use Rattle.krieg_play.specs.Teams.{team};
ghost use Rattle.krieg_play.specs.Played.{sides};
ghost use Rattle.krieg_cli.specs.Start.{asked_of, both_at, one_at, seated, StartsAt, StartsWith, Starts};

use crate::top::{run, run_find};
use krieg_args::{SeatFiles, conduct_files, lead_files, seat_files};
use krieg_play::Bench;
use krieg_ports::{Sink, Source, write_all};
use krieg_seats::{Seat, StreamSeat};
use std::alloc::Global;
use std::env::Env;
use std::fs::{File, Files};
use std::{env, fs, io};

/// The programs.
#[derive(Clone, Copy)]
enum Program {
    /// `krieg`.
    Krieg,
    /// `krieg_find`.
    Find,
}

/// The words after the program's name. Where one of them is not UTF-8 they are the words of no command, as
/// no words are.
fn words<R: Env + AllocGlobal>(rt: &R) -> io::Result<Vec<String>> {
    let mut words = Vec::new(rt.alloc());
    match env::args(rt) {
        Ok(all) => {
            for word in all.skip(1) {
                words.push(word)?;
            }
        }
        Err(error) if error.kind() == io::ErrorKind::OutOfMemory => return Err(error),
        Err(_) => {}
    }
    Ok(words)
}

/// Where players come from.
trait Players {
    // What the player is whose tries come from the first of these files, and who is told in the second.
    ghost made: { List ℕ → List ℕ → Account };

    /// The player at these two files, or none where there is no memory for one.
    fn player(&self, alloc: Global, tries: &str, told: &str) -> Option<Box<StreamSeat<File, File>>>
        ensures { IfSome result (λ seat. stream_account seat.value ≡ made tries.now told.now) };
}

/// Players at files of the system.
#[derive(Drop)]
struct FilePlayers<'a, R> {
    rt: &'a R,
}

impl<'a, R: Files<File = File>> Players for FilePlayers<'a, R> {
    ghost made = { λ _ _. new_account };

    /// A file that cannot be opened is a missing reader or writer; the file in which he is told is made, and what it
    /// held is gone.
    fn player(
        &self,
        alloc: Global,
        tries: &str,
        told: &str,
    ) -> Option<Box<StreamSeat<File, File>>> {
        let seat = StreamSeat::new(
            alloc,
            fs::open(self.rt, tries).ok(),
            fs::create(self.rt, told).ok(),
        );
        Box::new(alloc, seat).ok()
    }
}

/// Tells a proof that a boxed player is the one who was made of these two files.
fn know_player<P: Players>(players: &P, seat: &Box<dyn Seat>, tries: &str, told: &str)
    requires { account seat.now ≡ P.made tries.now told.now }
    ensures { account seat.now ≡ P.made tries.now told.now }
{}

fn tell_memory<E: Sink>(err: &mut E) -> u8
    ensures line { let heard = stream E.got E.faults in
        Gets (codes "krieg: want of memory\n") (heard err.old) (heard err.new) }
    ensures status { result ≡ 11 }
{
    let _ = write_all(err, b"krieg: want of memory\n");
    11
}

/// What a run is made of: the program, where players come from, memory, and the words after the program's name.
#[derive(Drop)]
struct Call<'a, P> {
    program: Program,
    players: &'a P,
    alloc: Global,
    words: &'a [String],
}

/// A run of these words with one player on each side: White's is made of the first two files, and Black's of the last
/// two.
fn start_playing<P: Players, S: Source, O: Sink, E: Sink>(
    call: &Call<'_, P>,
    files: &SeatFiles<'_>,
    input: &mut S,
    out: &mut O,
    err: &mut E,
) -> u8
    ensures { let seen = world S.left S.faults O.got O.faults in
        let heard = stream E.got E.faults in
        StartsAt (both_at P.made
        (record {
          win = files.now.win.now;
          wout = files.now.wout.now;
          bin = files.now.bin.now;
          bout = files.now.bout.now;
        })) (command_of (map string_bytes call.now.words.now)) result
        (seen input.old out.old) (seen input.new out.new)
        (heard err.old) (heard err.new) }
{
    let alloc = call.alloc;
    let Some(white) = call.players.player(alloc, files.win, files.wout) else {
        return tell_memory(err);
    };
    let Some(black) = call.players.player(alloc, files.bin, files.bout) else {
        return tell_memory(err);
    };
    let white: Box<dyn Seat> = white;
    let black: Box<dyn Seat> = black;
    know_player(call.players, &white, files.win, files.wout);
    know_player(call.players, &black, files.bin, files.bout);
    let mut bench = Bench::new(alloc);
    if bench.white.push(white).is_err() || bench.black.push(black).is_err() {
        return tell_memory(err);
    }
    let status = run(alloc, call.words, input, out, err, &mut bench);
    bench.dismiss();
    status
}

/// A run of these words with one player on White's side, who is made of these two files.
fn start_leading<P: Players, S: Source, O: Sink, E: Sink>(
    call: &Call<'_, P>,
    tries: &str,
    told: &str,
    input: &mut S,
    out: &mut O,
    err: &mut E,
) -> u8
    ensures { let seen = world S.left S.faults O.got O.faults in
        let heard = stream E.got E.faults in
        StartsAt (one_at P.made (tries.now, told.now))
        (asked_of call.now.program (map string_bytes call.now.words.now)) result
        (seen input.old out.old) (seen input.new out.new)
        (heard err.old) (heard err.new) }
{
    let Some(opponent) = call.players.player(call.alloc, tries, told) else {
        return tell_memory(err);
    };
    let opponent: Box<dyn Seat> = opponent;
    know_player(call.players, &opponent, tries, told);
    let mut bench = Bench::new(call.alloc);
    if bench.white.push(opponent).is_err() {
        return tell_memory(err);
    }
    match call.program {
        Program::Krieg => run(call.alloc, call.words, input, out, err, &mut bench),
        Program::Find => run_find(call.alloc, call.words, input, out, err, &mut bench),
    }
}

/// A run of these words with nobody on the bench.
fn start_alone<P: Players, S: Source, O: Sink, E: Sink>(
    call: &Call<'_, P>,
    input: &mut S,
    out: &mut O,
    err: &mut E,
) -> u8
    ensures { let seen = world S.left S.faults O.got O.faults in
        let heard = stream E.got E.faults in
        StartsAt (sides (team [] []) (team [] []))
        (asked_of call.now.program (map string_bytes call.now.words.now)) result
        (seen input.old out.old) (seen input.new out.new)
        (heard err.old) (heard err.new) }
{
    let mut bench = Bench::new(call.alloc);
    match call.program {
        Program::Krieg => run(call.alloc, call.words, input, out, err, &mut bench),
        Program::Find => run_find(call.alloc, call.words, input, out, err, &mut bench),
    }
}

/// A run of these words with an opponent at these files, or with nobody.
fn start_opposed<P: Players, S: Source, O: Sink, E: Sink>(
    call: &Call<'_, P>,
    opponent: Option<(&str, &str)>,
    input: &mut S,
    out: &mut O,
    err: &mut E,
) -> u8
    ensures { let seen = world S.left S.faults O.got O.faults in
        let heard = stream E.got E.faults in
        StartsAt (seated P.made None
        (option_map (λ files. (files.0.now, files.1.now)) opponent.entry))
        (asked_of call.now.program (map string_bytes call.now.words.now)) result
        (seen input.old out.old) (seen input.new out.new)
        (heard err.old) (heard err.new) }
{
    match opponent {
        Some((tries, told)) => start_leading(call, tries, told, input, out, err),
        None => start_alone(call, input, out, err),
    }
}

/// Does all that the program does with these words, over these streams, with the players that they ask for.
fn start_with<P: Players, S: Source, O: Sink, E: Sink>(
    call: &Call<'_, P>,
    input: &mut S,
    out: &mut O,
    err: &mut E,
) -> u8
    ensures { let seen = world S.left S.faults O.got O.faults in
        let heard = stream E.got E.faults in
        StartsWith P.made call.now.program (map string_bytes call.now.words.now) result
        (seen input.old out.old) (seen input.new out.new)
        (heard err.old) (heard err.new) }
{
    match call.program {
        Program::Krieg => match seat_files(call.words) {
            Some(files) => start_playing(call, &files, input, out, err),
            None => start_opposed(call, lead_files(call.words), input, out, err),
        },
        Program::Find => start_opposed(call, conduct_files(call.words), input, out, err),
    }
}

/// A start of the program.
fn start_program<R: Env + AllocGlobal + Files<File = File>, S: Source, O: Sink, E: Sink>(
    rt: &R,
    program: Program,
    input: &mut S,
    out: &mut O,
    err: &mut E,
) -> u8
    ensures { let seen = world S.left S.faults O.got O.faults in
        let heard = stream E.got E.faults in
        Starts program result (seen input.old out.old) (seen input.new out.new)
        (heard err.old) (heard err.new) }
{
    let Ok(words) = words(rt) else {
        return tell_memory(err);
    };
    let call = Call {
        program,
        players: &FilePlayers { rt },
        alloc: rt.alloc(),
        words: &words,
    };
    start_with(&call, input, out, err)
}

/// Does all that the program does with the words that the system gives, over these streams, and gives the
/// status with which the program ends.
///
/// It is the status of `run`, with the players of the four files where the words are those of `play`, the opponent at the two
/// files where they are those of `lead`, and nobody for other words; where memory is not found for the words or the players, it
/// is 11, with the same line on `err`, and nothing was read or written to `out`.
pub fn start<R: Env + AllocGlobal + Files<File = File>, S: Source, O: Sink, E: Sink>(
    rt: &R,
    input: &mut S,
    out: &mut O,
    err: &mut E,
) -> u8
    ensures { let seen = world S.left S.faults O.got O.faults in
        let heard = stream E.got E.faults in
        Starts Program.Krieg result (seen input.old out.old) (seen input.new out.new)
        (heard err.old) (heard err.new) }
{
    start_program(rt, Program::Krieg, input, out, err)
}

/// Does all that the program `krieg_find` does with the words that the system gives, over these streams, and gives the status
/// with which it ends.
///
/// It is the status of `run_find`, with the opponent at the two files where the words are those of `conduct`, and nobody
/// for other words; where memory is not found for the words or the opponent, it is 11, with the same line on `err`, and nothing was
/// read or written to `out`.
pub fn start_find<R: Env + AllocGlobal + Files<File = File>, S: Source, O: Sink, E: Sink>(
    rt: &R,
    input: &mut S,
    out: &mut O,
    err: &mut E,
) -> u8
    ensures { let seen = world S.left S.faults O.got O.faults in
        let heard = stream E.got E.faults in
        Starts Program.Find result (seen input.old out.old) (seen input.new out.new)
        (heard err.old) (heard err.new) }
{
    start_program(rt, Program::Find, input, out, err)
}
