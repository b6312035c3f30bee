// The register of the worked cases: two panels, each a block that the call makes.

// Neither is refused: the block of one that is refused would stay zeros, and the script's first request would be refused with 3.
pub fn register() -> [u8; 1024] {
    let mut register = [0u8; 1024];
    let (gate, lamp) = register.split_at_mut(512);
    let _gate = signon::panel(b"https://g.lan/p?i=2", b"https://g.lan/cb", gate);
    let _lamp = signon::panel(b"https://k.lan/a'b", b"https://k.lan/cb?x=1&y=2", lamp);
    register
}
