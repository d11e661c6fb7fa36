use crate::asserting::same;
use deck_draw::draw;
use matchstate::read_deal;
use std::process::Abort;

/// A seed, a hand, the number of players, and the known deal of them.
static KNOWN: [(u64, u32, usize, &str); 12] = [
    (0, 0, 2, "6d4h|2d9d/TdAdAc/3h/Ts"),
    (0, 1, 2, "4h5s|Ts3s/Kd8c9s/Td/7c"),
    (1, 0, 2, "Ts5s|9cKh/3h5c9d/8d/8c"),
    (
        18446744073709551615,
        0,
        9,
        "Tc3c|AsQh|6c8s|4dJh|Ts2s|2hJc|9h7h|9c8h|4cKh/6sAc3d/4h/5s",
    ),
    (
        9223372036854775807,
        9999,
        10,
        "2h6h|Th8s|2c7c|9dTs|3cKh|8hJc|AdKs|5dAs|Js9s|3s5s/QdQh8c/4h/6s",
    ),
    (256, 0, 2, "8s2s|7s8d/Js5dJd/Kc/Tc"),
    (4129336288782858132, 5887, 3, "6h2h|6d4s|4cQc/TcAs4d/7h/9d"),
    (
        4890287419857120174,
        4851,
        4,
        "5cQh|Kd6s|Td5s|Ts5h/9c9d4d/Jc/Jd",
    ),
    (
        14127122832130638004,
        2936,
        5,
        "QsTc|Qc9h|Ac7s|AsJd|3d6c/Ks9cJh/Qh/3s",
    ),
    (
        6548931961840961409,
        7648,
        6,
        "6h2h|KcQs|5c6d|QhQc|5hTs|5s6c/5d2d8d/2s/8c",
    ),
    (
        6841168071261687275,
        4078,
        7,
        "4d3h|4c6h|Jh8s|8d7h|5cAs|4s7d|Qs3s/Ts6cKc/Tc/Qh",
    ),
    (
        16362717991051130842,
        25,
        8,
        "3dTd|QcTc|2cJd|Jc3s|4h5c|KsAc|5d8h|AdKh/7c2h7d/9s/6c",
    ),
];

/// Sees the deal of a seed and a hand, by its text.
fn draws(rt: &impl Abort, seed: u64, hand: u32, players: usize, text: &str) {
    assert!(rt; 2 <= players && players <= 10);
    same!(rt; Some(draw(seed, hand, players)), read_deal(text.as_bytes(), players));
}

#[test]
fn decks_are_the_known_ones(rt: HostRuntime) {
    for &(seed, hand, players, text) in &KNOWN {
        draws(&rt, seed, hand, players, text);
    }
}
