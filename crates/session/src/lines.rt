// Where lines end.
ghost use Rattle.std.specs.Prelude.{◌≡◌, ◌≤◌, length};
ghost use Rattle.std.specs.List.{prefix_len};
ghost use Rattle.session.specs.Sessions.{is_no_feed, line_after};

// How many bytes stand before the first line feed, or in all where there is none.
fn before_feed(bytes: &[u8]) -> usize
    ensures within { result ≤ length bytes.now }
    ensures value { result ≡ prefix_len is_no_feed bytes.now }
{
    bytes.iter().take_while(|byte| **byte != b'\n').count()
}

// The place after the first line feed from that place on, or the text's end.
pub fn line_after(text: &[u8], place: usize) -> usize
    ensures { result ≡ line_after text.now place }
{
    let start = place.min(text.len());
    let feed = start + before_feed(&text[start..]);
    (feed + 1).min(text.len())
}
