// Table 8-6: the route bytes of the node's 32 sources: read, written, the sources routed to a core, the lines that routes name.
#![tactic(auto)]

ghost use Rattle.std.specs.Prelude.{◌≡◌, get_or};
ghost use Rattle.routes.specs.Routes.{lines_of, route_read, routed_of};
ghost use Rattle.routes.specs.Moved.{route_moved};
ghost use Rattle.routes.specs.Private.{reached_of};

use bits::After;

// Bits 3..2 name cores that the model lacks.
#[tactic(auto, using(crate::proofs::Moved::held_read))]
fn held(byte: u64) -> u64
    ensures { result ≡ route_read byte }
{
    0xf3 & byte
}

// What Entry reads as.
pub fn read(routes: [u8; 32], source: u64) -> u64
    ensures { result ≡ route_read (get_or routes source 0) }
{
    held(lanes::byte_at(&routes, source) as u64)
}

// The routes after the bits in mask of one of them took values, and the bits of it, of those that are held, which then differ (request Q-8). Of a
// route that is not there, none does.
pub fn written(mut routes: [u8; 32], source: u64, mask: u64, value: u64) -> After<[u8; 32]>
    ensures { result ≡ route_moved routes source mask value }
{
    let new = bits::merge(lanes::byte_at(&routes, source), mask, value);
    lanes::put_at(&mut routes, source, new.state);
    After {
        state: routes,
        moved: bits::choose(source < 32, held(new.moved), 0),
    }
}

// The sources in `which` that are routed to a core. Only their routes are looked at.
#[tactic(auto, unfolding(crate::specs::Routes::routed_of, lanes::specs::Bytes::gathered))]
pub fn routed(routes: [u8; 32], which: u32, core: u64) -> u32
    ensures { result ≡ routed_of routes which core }
{
    lanes::gather(routes, which, core)
}

// The lines that a route names: its pins at the place of core 0, of core 1, or of both.
fn reached(route: u8) -> u8
    ensures { result ≡ reached_of route }
{
    route / 16 * (route % 2 + route / 2 % 2 * 16)
}

// The lines that the routes of the sources in `which` name, core c and pin p as bit 4 * c + p. Only those routes are looked at.
pub fn lines(routes: [u8; 32], which: u32) -> u8
    ensures { result ≡ lines_of routes which }
{
    let mut w = which;
    let mut r: u8 = 0;
    while w != 0 {
        r |= reached(routes[lanes::lowest(w) as usize]);
        w = lanes::clear_lowest(w);
    }
    r
}
