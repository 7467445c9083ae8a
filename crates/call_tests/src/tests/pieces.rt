//! Tests of the pieces that sinks take and that the limit passes.
use demangle_sink::{ArraySink, SizeLimitedFmtAdapter, TextSink, put_char, put_each};

#[test]
fn a_sink_takes_what_fits(rt: HostRuntime) {
    let mut sink = ArraySink::<4>::new();
    assert!(rt; sink.put("ab").is_ok());
    assert!(rt; sink.put("").is_ok());
    assert!(rt; sink.put("cd").is_ok());
    assert!(rt; !sink.is_failed());
    assert!(rt; sink.put("e").is_err());
    assert!(rt; sink.is_failed());
    assert_eq!(rt; sink.as_str(), "abcd");
}

#[test]
fn the_limit_passes_whole_pieces(rt: HostRuntime) {
    let mut sink = ArraySink::<64>::new();
    let mut out = SizeLimitedFmtAdapter::new(&mut sink, 5);
    assert!(rt; put_each(&["a", "", "b"], &mut out).is_ok());
    assert!(rt; put_char('ü', &mut out).is_ok());
    assert!(rt; !out.is_limit_reached());
    assert!(rt; put_char('ö', &mut out).is_err());
    assert!(rt; out.is_limit_reached());
    assert_eq!(rt; sink.as_str(), "abü");
}
