//! Names as their labels, without pointers.
ghost use Rattle.std.specs.Prelude.{◌≡◌, ◌≤◌, ◌<◌, ◌+◌, ◌++◌, length, take, IfSome, IsNone};
ghost use Rattle.octseq_dns_name.specs.Name.{wire_length};
ghost use Rattle.octseq_dns_name.specs.Read.{labels_of, place_of};
ghost use Rattle.octseq_dns_compress.specs.Names.{labels_wire};
ghost use Rattle.octseq_dns_compress.specs.LabelOffsets.{AreWhole, labels_at, whole_once};

use octseq::AsOctets;
use octseq_dns_name::ParsedName;

/// The greatest number of labels of a name: of its 255 octets, each label takes at least two, and the root takes one.
const LABELS_MAX: usize = 127;

/// Most names have no more labels: room for their offsets takes little time to make.
pub(crate) const LABELS_FEW: usize = 8;

/// The greatest number of octets of the labels of a name, with their length octets.
const UNROOTED_MAX: usize = 254;

/// The labels of a name, by their offsets in the octets that it was read from.
#[derive(Drop)]
pub(crate) struct LabelOffsets<'a> {
    octets: &'a [u8],
    starts: &'a [usize],
    len: usize,
    ghost whole: { AreWhole octets.now starts.now } by { whole_once octets.now starts.now },
    ghost measured: { len ≡ length (labels_wire (labels_at octets.now starts.now)) },
    ghost short: { len ≤ 254 },
}

impl<'a> LabelOffsets<'a> {
    ghost use Rattle.octseq_dns_compress.specs.Names.{label_no, prefixed};
    ghost use Rattle.octseq_dns_compress.specs.PlainNames.{plain_labels};

    /// The labels of a name, whose length octets are at these offsets in the octets that it was read from. They have
    /// `len` octets with their length octets.
    pub fn new<R: AsOctets + Copy>(
        octets: &'a [u8],
        starts: &'a [usize],
        len: usize,
        name: &ParsedName<R>,
    ) -> LabelOffsets<'a>
        requires source { octets.now ≡ (place_of name.now).octets }
        requires whole { AreWhole (place_of name.now).octets starts.now }
        requires labels { labels_at (place_of name.now).octets starts.now ≡ labels_of name.now }
        requires len { len + 1 ≡ wire_length (labels_of name.now) }
        ensures { plain_labels result ≡ labels_of name.now }
    {
        if len > UNROOTED_MAX {
            // No name is that long, as its own count tells.
            let _len = name.len();
            unreachable!();
        }
        LabelOffsets {
            octets,
            starts,
            len,
        }
    }

    /// Returns the number of labels.
    pub fn label_count(&self) -> usize
        ensures { result ≡ length (plain_labels self.now) }
    {
        self.starts.len()
    }

    /// Returns the number of octets of its labels with their length octets.
    pub fn len(&self) -> usize
        ensures len { result ≡ length (labels_wire (plain_labels self.now)) }
        ensures most { result ≤ 254 }
    {
        self.len
    }

    /// Returns a label with its length octet.
    pub fn label(&self, index: usize) -> &[u8]
        requires { index < length (plain_labels self.now) }
        ensures { result.now ≡ prefixed (label_no (plain_labels self.now) index) }
    {
        let (octets, start) = (self.octets, self.starts[index]);
        let len = usize::from(octets[start]);
        &octets[start..start + 1 + len]
    }

    /// Returns the octets of as many labels from an index on as lie one after another, before another index, and the
    /// index of the label after them.
    #[inline(always)]
    pub fn run(&self, from: usize, to: usize) -> (&[u8], usize)
        requires some { from < to }
        requires within { to ≤ length (plain_labels self.now) }
        ensures run { labels_wire (take result.1 (plain_labels self.now))
            ≡ labels_wire (take from (plain_labels self.now)) ++ result.0.now }
        ensures some { from < result.1 }
        ensures within { result.1 ≤ to }
    {
        let (octets, start) = (self.octets, self.starts[from]);
        let mut end = start + 1 + usize::from(octets[start]);
        let mut index = from + 1;
        'labels: while index < to && self.starts[index] == end {
            end += 1 + usize::from(octets[end]);
            index += 1;
        }
        (&octets[start..end], index)
    }
}

/// Returns the offset of each label of a name, and the number of their octets with their length octets. Only a name
/// with many labels needs the second array, which is made then.
pub(crate) fn starts_of<'a, R: AsOctets + Copy>(
    few: &'a mut [usize; LABELS_FEW],
    many: &'a mut Option<[usize; LABELS_MAX]>,
    name: &ParsedName<R>,
) -> (&'a [usize], usize)
    ensures whole { AreWhole (place_of name.now).octets result.0.now }
    ensures labels { labels_at (place_of name.now).octets result.0.now ≡ labels_of name.now }
    ensures len { result.1 + 1 ≡ wire_length (labels_of name.now) }
{
    if let Some((count, len)) = place_labels(few, name) {
        return (&few[..count], len);
    }
    let many = many.insert([0; LABELS_MAX]);
    match place_labels(many, name) {
        Some((count, len)) => (&many[..count], len),
        None => unreachable!(),
    }
}

/// Writes the offset of each label of a name. Returns their number, and that of their octets with their length octets,
/// or `None` if there is no room for them all.
fn place_labels<const N: usize, R: AsOctets + Copy>(
    starts: &mut [usize; N],
    name: &ParsedName<R>,
) -> Option<(usize, usize)>
    requires { N ≤ 127 }
    ensures most { IfSome result (λ found. found.0 ≤ N) }
    ensures whole { IfSome result (λ found. AreWhole (place_of name.now).octets (take found.0 starts.new)) }
    ensures labels { IfSome result (λ found.
        labels_at (place_of name.now).octets (take found.0 starts.new) ≡ labels_of name.now) }
    ensures len { IfSome result (λ found. found.1 + 1 ≡ wire_length (labels_of name.now)) }
    ensures none { IsNone result → N < 127 }
{
    let parser = name.parser();
    // Its window ends within the octets.
    let _end = parser.len();
    let (mut count, mut len) = (0, 0);
    'places: for label in name.labels() {
        if count == N {
            // A name has at most 255 octets, so at most 127 labels.
            let _len = name.len();
            return None;
        }
        starts[count] = label.pos() - 1;
        len += 1 + label.as_slice().len();
        count += 1;
    }
    Some((count, len))
}
