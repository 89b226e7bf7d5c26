// What stands at or beneath a directory, told of all slots at once (01 "DELETE": it and all beneath; "Making and
// reporting": all files beneath).
//
// A walk over the slots: each climbs to a record that is known, or that stands no deeper than the directory; then all
// that it passed are known too. So no record is passed by two climbs, and one whose parent is known climbs nowhere.
#![tactic(auto)]

ghost use Rattle.std.specs.Prelude.{◌≡◌, ◌+◌, ◌<◌};
ghost use Rattle.image.specs.Layout.{Within};
ghost use Rattle.sound.specs.Table.{view_at};
ghost use Rattle.sound.specs.Kinship.{at_or_beneath, beneath as lies_beneath, files_beneath};
ghost use Rattle.kinship.specs.Climb.{Rooted, Stands};
ghost use Rattle.subtree.specs.Known.{mark_of, is_open, Known, MarkOrNone, Keeps, Settled};

use image::fields;

// Whether s is not known yet, and deeper than level `high`.
fn open(marks: &[u8; 1023], image: &[u8], high: usize, s: usize) -> bool
    requires { Within image.now s }
    ensures { result ≡ is_open (view_at image.now) high marks.now s }
{
    if marks[s] != 0 {
        return false;
    }
    high < fields::level(image, s)
}

// The mark of s: that of the first record on the way up that is known or no deeper than d.
fn find(marks: &[u8; 1023], image: &[u8], n: usize, d: usize, s: usize) -> u8
    requires rooted { Rooted image.now n }
    requires d_lt_n { (d < n) × Stands image.now n s }
    requires known { Known (view_at image.now) n d marks.now }
    ensures { result ≡ mark_of (at_or_beneath (view_at image.now) d s) }
{
    let high = fields::level(image, d);
    let mut t = s;
    // No `for`: only the marks tell how far it is.
    while open(marks, image, high, t) {
        t = fields::parent(image, t);
    }
    let mark = marks[t];
    if mark != 0 {
        return mark;
    }
    if t == d {
        return 1;
    }
    2
}

// Gives the mark of s to all that `find` passed.
fn spread(marks: &mut [u8; 1023], image: &[u8], n: usize, d: usize, s: usize, mark: u8)
    requires rooted { Rooted image.now n }
    requires d_lt_n { (d < n) × Stands image.now n s }
    requires known { Known (view_at image.now) n d marks.old }
    requires mark_value { mark ≡ mark_of (at_or_beneath (view_at image.now) d s) }
    ensures { Known (view_at image.now) n d marks.new × Keeps marks.old marks.new }
{
    let high = fields::level(image, d);
    let mut t = s;
    // No `for`: only the marks tell how far it is.
    while open(marks, image, high, t) {
        marks[t] = mark;
        t = fields::parent(image, t);
    }
}

// The mark of s where that takes no climb: s is no deeper than d, or its parent's mark is its own, which is 0 as long as it is not
// known. Parents mostly stand in lower slots, so most records are settled here.
fn at_once(marks: &[u8; 1023], image: &[u8], n: usize, d: usize, s: usize) -> u8
    requires rooted { Rooted image.now n }
    requires d_lt_n { (d < n) × Stands image.now n s }
    requires known { Known (view_at image.now) n d marks.now }
    ensures { MarkOrNone (view_at image.now) d s result }
{
    if fields::level(image, d) < fields::level(image, s) {
        return marks[fields::parent(image, s)];
    }
    if s == d {
        return 1;
    }
    2
}

// Makes s known.
fn settle(marks: &mut [u8; 1023], image: &[u8], n: usize, d: usize, s: usize)
    requires rooted { Rooted image.now n }
    requires d_lt_n { (d < n) × (s < n) }
    requires settled { Settled (view_at image.now) n d s marks.old }
    ensures { Settled (view_at image.now) n d (s + 1) marks.new }
{
    if marks[s] != 0 {
        return;
    }
    if fields::kind(image, s) == image::FREE {
        marks[s] = 2;
        return;
    }
    let known = at_once(marks, image, n, d, s);
    if known != 0 {
        marks[s] = known;
        return;
    }
    let mark = find(marks, image, n, d, s);
    spread(marks, image, n, d, s, mark);
    marks[s] = mark;
}

// Marks every slot: 1 where it holds d or a file beneath it, else 2. The array comes with zeros.
pub fn settle_all(marks: &mut [u8; 1023], image: &[u8], n: usize, d: usize)
    requires rooted { Rooted image.now n }
    requires d_lt_n { d < n }
    requires settled { Settled (view_at image.now) n d 0 marks.old }
    ensures { Settled (view_at image.now) n d n marks.new }
{
    for s in 0..n {
        settle(marks, image, n, d, s);
    }
}

// Whether slot s, whose mark is known, holds a file beneath directory d.
fn is_beneath(marks: &[u8; 1023], image: &[u8], n: usize, d: usize, s: usize) -> bool
    requires rooted { Rooted image.now n × (s < n) }
    requires settled { Settled (view_at image.now) n d n marks.now }
    ensures { result ≡ lies_beneath (view_at image.now) d s }
{
    if marks[s] != 1 {
        return false;
    }
    s != d
}

// How many files lie beneath directory d.
pub fn beneath(image: &[u8], n: usize, d: usize) -> u32
    requires rooted { Rooted image.now n }
    requires d_lt_n { d < n }
    ensures { result ≡ files_beneath n (view_at image.now) d }
{
    let mut marks = [0u8; 1023];
    settle_all(&mut marks, image, n, d);
    let mut sum = 0;
    for s in 0..n {
        sum += u32::from(is_beneath(&marks, image, n, d, s));
    }
    sum
}
