// Replies on both lines, and areas of every length up to the reply's own.
use crate::compose;
use area::Refusal;
use codes::DLE;
use line::Line;
use line::asynchronous::AsyncLine;
use line::synchronous::SyncLine;
use reply::no_traffic::no_traffic;
use std::test::Fail;

#[test]
fn no_traffic_on_the_synchronous_line(rt: HostRuntime) -> Result<(), Fail> {
    let line = SyncLine::new();
    let mut area = [0xaa; 10];
    let closed = no_traffic(&line, &mut area)?;
    assert_eq!(rt; closed.length, 8);
    assert_eq!(rt;
        area,
        [0x16, 0x16, 0x16, 0x16, 0x04, 0x04, 0x83, 0x83, 0xaa, 0xaa]
    );
    Ok(())
}

#[test]
fn a_text_on_the_asynchronous_line(rt: HostRuntime) {
    let line = AsyncLine::new();
    let mut area = [0xaa; 12];
    assert_eq!(rt; compose(&line, &mut area, &[DLE, 0x31], b"A"), Ok(10));
    assert_eq!(rt;
        area,
        [
            0x81, 0xb1, 0xe1, 0xf0, 0x90, 0xb1, 0x82, 0x41, 0x03, 0x41, 0xaa, 0xaa,
        ]
    );
}

// Exactly as long is enough, and one octet less is refused and changes nothing but what was begun.
#[test]
fn areas_of_every_length(rt: HostRuntime) {
    let line = SyncLine::new();
    for end in 0..12 {
        let mut area = [0xaa; 12];
        assert_eq!(rt;
            compose(&line, &mut area[0..end], &[], b"A"),
            Err(Refusal::ShortArea)
        );
    }
    let mut area = [0xaa; 13];
    assert_eq!(rt; compose(&line, &mut area[0..12], &[], b"A"), Ok(12));
    assert_eq!(rt; area[12], 0xaa);
}

#[test]
fn a_short_area_for_no_traffic(rt: HostRuntime) {
    let mut area = [0xaa; 7];
    assert!(rt; no_traffic(&SyncLine::new(), &mut area).is_err());
    assert_eq!(rt; area, [0xaa; 7]);
}
