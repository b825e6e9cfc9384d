// What a board shows, and how it is spelled.
use station_board::{Beginning, Board, DoorPen, EntryKind};
use station_health::health_text;
use station_snapshot::{DoorState, Snapshot};
use status_page::{json_text, metrics_text};
use status_view::page_text;
use std::alloc::Global;
use std::net::SocketAddr;
use std::test::Fail;

// The board of a station with two doors, which began at second 100.
fn board(alloc: Global) -> Result<Board, Fail> {
    let doors = [
        SocketAddr::from(([127, 0, 0, 1], 5101)),
        SocketAddr::from(([127, 0, 0, 1], 5102)),
    ];
    let beginning = Beginning {
        at: 100_000,
        version: "1.0",
        source: "127.0.0.1:5150",
        doors: &doors,
        links: 3,
        expected: 60_000,
        send_limit: 30_000,
    };
    Ok(Board::new(alloc, &beginning)?)
}

// A user of the first door sends 20 octets, hears 30, and goes.
fn serve(board: &Board, alloc: Global) -> Result<(), Fail> {
    let pen = DoorPen::new(board.share()?, 0);
    pen.connected(SocketAddr::from(([192, 0, 2, 7], 40512)));
    pen.heard(20);
    pen.sent(30);
    pen.stalled();
    pen.ended(Some(String::from_str(alloc, "unbound")?));
    Ok(())
}

// What it shows at second 110, after a user, two entries, a sync and a telecommand.
fn shown(alloc: Global) -> Result<Snapshot, Fail> {
    let board = board(alloc)?;
    board.tick(105_000, 105_000);
    serve(&board, alloc)?;
    board.entry_came(EntryKind::Frame, 1_131);
    board.entry_came(EntryKind::Seal, 16);
    board.archive_capacity(1_000_000);
    board.archive_synced(2_000);
    board.sending();
    board.sending_ended(true);
    board.recorder_turned();
    board.tick(110_000, 110_250);
    Ok(board.snapshot(alloc)?)
}

#[test]
fn a_board_shows_what_was_counted(rt: HostRuntime) -> Result<(), Fail> {
    let snapshot = shown(rt.alloc())?;
    let source = &snapshot.source;
    assert_eq!(rt;
        (snapshot.at, snapshot.wall, snapshot.began),
        (110_000, 110_250, 100_000)
    );
    assert_eq!(rt; (source.frames, source.losses, source.seals), (1, 0, 1));
    assert_eq!(rt;
        (snapshot.archive.octets, snapshot.archive.synced),
        (2_000, 105_000)
    );
    assert_eq!(rt; (snapshot.antenna.sent, snapshot.antenna.failed), (1, 0));
    Ok(())
}

#[test]
fn a_door_shows_its_users(rt: HostRuntime) -> Result<(), Fail> {
    let snapshot = shown(rt.alloc())?;
    let Some(door) = snapshot.doors.first() else {
        return Err(Fail::from("no door"));
    };
    assert_eq!(rt; (door.octets_in, door.octets_out, door.stalls), (20, 30, 1));
    assert_eq!(rt; (door.links, door.most_links, door.since), (1, 3, 105_000));
    assert_eq!(rt; door.state, DoorState::Waiting);
    assert_eq!(rt; door.ends.len(), 1);
    Ok(())
}

// The same after the recorder has ended, and a sync failed.
fn ended(alloc: Global) -> Result<Snapshot, Fail> {
    let board = board(alloc)?;
    board.sync_failed();
    board.archive_synced(2_000);
    board.recorder_ended();
    Ok(board.snapshot(alloc)?)
}

#[test]
fn health_names_each_trouble(rt: HostRuntime) -> Result<(), Fail> {
    let alloc = rt.alloc();
    let well = health_text(alloc, &shown(alloc)?)?;
    let ill = health_text(alloc, &ended(alloc)?)?;
    assert_eq!(rt; well.as_slice(), b"healthy\n".as_slice());
    assert_eq!(rt;
        ill.as_slice(),
        b"unhealthy\n\
failure: the recorder has ended, and entries are no longer stored; \
read the log and start the station again\n\
warning: a sync of the archive's file failed; \
don't open the file again before the machine or its volume was started again\n"
            .as_slice()
    );
    Ok(())
}

// True if each of these octets is somewhere in a text, one after another.
fn has_all(text: &[u8], pieces: &[&[u8]]) -> bool {
    let mut rest = text;
    for piece in pieces {
        let Some(place) = rest
            .windows(piece.len().max(1))
            .position(|found| found == *piece)
        else {
            return false;
        };
        rest = rest.get(place..).unwrap_or(&[]);
    }
    true
}

#[test]
fn numbers_are_spelled_as_json(rt: HostRuntime) -> Result<(), Fail> {
    let text = json_text(rt.alloc(), &shown(rt.alloc())?)?;
    assert!(rt;
        has_all(
            &text,
            &[
                b"{\"healthy\":true,\"version\":\"1.0\",\"source_address\":\"127.0.0.1:5150\",",
                b"\"source_peer\":\"\",\"troubles\":[],\"time_seconds\":110,\"start_time_seconds\":100,",
                b"\"clock_ahead_milliseconds\":250,",
                b"\"frames_total\":1,\"losses_total\":0,\"productions_total\":0,\"seals_total\":1,",
                b"\"archive_octets\":2000,\"archive_capacity_octets\":1000000,",
                b"\"doors\":[{\"door\":1,\"address\":\"127.0.0.1:5101\",\"state\":\"waiting\",",
                b"\"octets_in_total\":20,\"octets_out_total\":30,",
                b"\"ends\":[{\"time_seconds\":105,\"peer\":\"192.0.2.7:40512\",\"how\":\"unbound\"}]},",
            ]
        )
    );
    Ok(())
}

#[test]
fn numbers_are_spelled_as_metrics(rt: HostRuntime) -> Result<(), Fail> {
    let text = metrics_text(rt.alloc(), &ended(rt.alloc())?)?;
    assert!(rt;
        has_all(
            &text,
            &[
                b"# HELP station_healthy 1 if the station is healthy.\n# TYPE station_healthy gauge\n\
station_healthy 0\n",
                b"# TYPE station_trouble gauge\nstation_trouble{name=\"recorder_ended\"} 1\n",
                b"station_trouble{name=\"sync_failed\"} 1\n",
                b"# HELP station_frames_total Frames that came.\n# TYPE station_frames_total counter\n\
station_frames_total 0\n",
                b"# TYPE station_door_links_limit gauge\nstation_door_links_limit{door=\"1\"} 3\n\
station_door_links_limit{door=\"2\"} 3\n",
            ]
        )
    );
    Ok(())
}

#[test]
fn the_page_says_each_count(rt: HostRuntime) -> Result<(), Fail> {
    let text = page_text(rt.alloc(), &shown(rt.alloc())?)?;
    assert!(rt;
        has_all(
            &text,
            &[
                b"<!DOCTYPE html>\n<html lang=\"en\"><head class=\"head\"><meta charset=\"utf-8\">",
                b"<span class=\"time\">00:01:50</span>",
                b"<div class=\"word\">Healthy</div>",
                b"<div class=\"big\">5 s</div><div class=\"unit\">since the last</div>",
                b"<span class=\"name\">frames</span><span class=\"value\">1</span>",
                b"<div class=\"big\">2.0 kB</div>",
                b"<td class=\"t\">20 B</td><td class=\"t\">30 B</td>",
                b"<div class=\"end\">unbound</div>",
            ]
        )
    );
    Ok(())
}
