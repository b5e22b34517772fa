// The image of a unit: read, and written.
ghost use Rattle.std.specs.Prelude.{◌≡◌, ◌≤◌};
ghost use Rattle.image.specs.Image.{unit_of, cut, rest_octets, image_of};

use book::Unit;
use image::seen::Seen;

// The unit that an image stands for.
pub(crate) fn unit_in(image: &[u8; 618]) -> Unit
    ensures { result ≡ unit_of image.now }
{
    let mut name = [0; 32];
    name.copy_from_slice(&image[..32]);
    let mut kept = [0; 554];
    octets::put(&mut kept, 0, &image[48..602]);
    Unit {
        name,
        waiting: [
            image.id(0),
            image.id(1),
            image.id(2),
            image.id(3),
            image.id(4),
            image.id(5),
            image.id(6),
            image.id(7),
        ],
        kept,
        state: image.state(),
        start: image.start(),
        end: image.end(),
        inactivity: image.inactivity(),
        elapsed: image.elapsed(),
        terms: image.terms(),
        letters: image.letters(),
        count: image.count(),
        octets: image.octets(),
    }
}

// A number cut to the largest that an image has room for.
fn cut(most: u16, n: usize) -> u16
    ensures value { result ≡ cut most n }
    ensures most { result ≤ most }
{
    if usize::from(most) < n {
        most
    } else {
        n as u16
    }
}

// The state and what stands behind it.
fn rest_octets(u: &Unit) -> [u8; 16]
    ensures { result ≡ rest_octets u.now }
{
    let Unit {
        state,
        start,
        end,
        inactivity,
        elapsed,
        terms,
        letters,
        count,
        octets,
        ..
    } = *u;
    let [start_high, start_low] = start.to_be_bytes();
    let [end_high, end_low] = end.to_be_bytes();
    let [inactivity_high, inactivity_low] = inactivity.to_be_bytes();
    let [elapsed_high, elapsed_low] = elapsed.to_be_bytes();
    let [octets_high, octets_low] = cut(65535, octets).to_be_bytes();
    [
        state,
        start_high,
        start_low,
        end_high,
        end_low,
        inactivity_high,
        inactivity_low,
        elapsed_high,
        elapsed_low,
        terms.class,
        terms.priority,
        terms.rer,
        cut(255, letters) as u8,
        cut(255, count) as u8,
        octets_high,
        octets_low,
    ]
}

// Writes the image of a unit.
pub(crate) fn put_unit(image: &mut [u8; 618], u: &Unit)
    ensures { image.new ≡ image_of u.now }
{
    let ids = [
        u.waiting[0].to_be_bytes(),
        u.waiting[1].to_be_bytes(),
        u.waiting[2].to_be_bytes(),
        u.waiting[3].to_be_bytes(),
        u.waiting[4].to_be_bytes(),
        u.waiting[5].to_be_bytes(),
        u.waiting[6].to_be_bytes(),
        u.waiting[7].to_be_bytes(),
    ];
    octets::put(image, 0, &u.name);
    octets::put(image, 32, ids.as_flattened());
    octets::put(image, 48, &u.kept);
    octets::put(image, 602, &rest_octets(u));
}
