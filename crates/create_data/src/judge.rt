// CREATE's data judged (01 "CREATE", data): 62 LL, the objects of a DF's or an EF's list, and what their
// values must obey on a card of version v. Any breach is bad: None. Each value goes to its reader as a part of the data.
ghost use Rattle.std.specs.Prelude.{◌≡◌, ◌<◌};
ghost use Rattle.template.specs.Objects.{InData, Held, value_in};
ghost use Rattle.template.specs.Values.{first_of, pair_of, record_length_of, number_of};
ghost use Rattle.create_data.specs.Data.{is_template, name_good, rule_good, both_good, new_file, df_of, ef_of, sized_ef, file_of};

use crate::{Data, NewFile, form};
use rules::{descriptor, life_cycle};
use template::{Objects, Span, value};

// Whether the data is a template: 62, a length 00-7F, and exactly as many bytes.
#[tactic(auto, unfolding(crate::specs::Data::is_template))]
pub fn is_template(s: &[u8]) -> bool
    ensures { result ≡ is_template s.now }
{
    2 <= s.len() && s[0] == 0x62 && s[1] <= 127 && s.len() - 2 == usize::from(s[1])
}

// CREATE's data, and objects in them: each value stands within the data.
#[derive(Clone, Copy)]
pub struct Sent<'a> {
    pub data: &'a [u8],
    pub objects: Objects,
    pub ghost held: { InData data.now objects },
}

// Beside that, a value that starts at 0 ends there, as of objects that were gathered: for a caller who rests on it. `read` does not.
#[derive(Clone, Copy)]
pub struct Gathered<'a> {
    pub data: &'a [u8],
    pub objects: Objects,
    pub ghost held: { Held data.now objects },
}

impl Gathered<'_> {
    // The file, as `Sent` has it.
    pub fn file(&self, v: u32) -> Option<Data>
        ensures { result ≡ file_of v self.now.data.now self.now.objects }
    {
        let sent = Sent {
            data: self.data,
            objects: self.objects,
        };
        sent.file(v)
    }
}

impl Sent<'_> {
    // The value of object k, as a part of the data.
    fn value_in(&self, k: usize) -> &[u8]
        requires { k < 12 }
        ensures { result.now ≡ value_in self.now.data.now self.now.objects k }
    {
        let Span { start, end } = form::place(&self.objects, k);
        &self.data[start..end]
    }

    // The first byte of object k's value.
    fn byte_in(&self, k: usize) -> u8
        requires { k < 12 }
        ensures { result ≡ first_of (value_in self.now.data.now self.now.objects k) }
    {
        value::first(self.value_in(k))
    }

    // The identifier.
    fn identifier_in(&self) -> u16
        ensures { result ≡ pair_of (value_in self.now.data.now self.now.objects 1) }
    {
        value::pair(self.value_in(1))
    }

    // The record length, behind the descriptor's two bytes.
    fn record_length_in(&self) -> u16
        ensures { result ≡ record_length_of (value_in self.now.data.now self.now.objects 0) }
    {
        value::record_length(self.value_in(0))
    }

    // The size of object k: 80 or 81.
    fn size_in(&self, k: usize) -> u32
        requires { k < 12 }
        ensures { result ≡ number_of (value_in self.now.data.now self.now.objects k) }
    {
        value::number(self.value_in(k))
    }

    // Whether the rule is there once, and a record of version v may hold it.
    #[tactic(auto, unfolding(crate::specs::Data::rule_good))]
    fn is_rule_good(&self, v: u32) -> bool
        ensures { result ≡ rule_good v self.now.data.now self.now.objects }
    {
        form::has_one_rule(self.objects)
            && access::fits_record(
                v,
                form::form_in(self.objects),
                self.value_in(form::rule_in(self.objects)),
            )
    }

    // Whether the name is not there, or has 1 to 16 bytes.
    #[tactic(auto, unfolding(crate::specs::Data::name_good))]
    fn is_name_good(&self) -> bool
        ensures { result ≡ name_good self.now.data.now self.now.objects }
    {
        form::is_absent(self.objects, 2) || value::fits_name(self.value_in(2))
    }

    // What identifier, life cycle and rule must obey in every file.
    #[tactic(auto, unfolding(crate::specs::Data::both_good))]
    fn is_both_good(&self, v: u32) -> bool
        ensures { result ≡ both_good v self.now.data.now self.now.objects }
    {
        rules::value::good_identifier(self.identifier_in())
            && life_cycle::is_new(self.byte_in(3))
            && self.is_rule_good(v)
    }

    // The new file, all tests passed: its numbers, and where its name and its rule stand.
    #[tactic(auto, unfolding(crate::specs::Data::new_file))]
    fn new_file(&self, length: u16, size: u32) -> NewFile
        ensures { result ≡ new_file self.now.data.now self.now.objects length size }
    {
        NewFile {
            descriptor: self.byte_in(0),
            identifier: self.identifier_in(),
            life: self.byte_in(3),
            form: form::form_in(self.objects),
            record_length: length,
            size,
            name: form::place(&self.objects, 2),
            rule: form::place(&self.objects, form::rule_in(self.objects)),
        }
    }

    // A DF by its list and its values.
    #[tactic(auto, unfolding(crate::specs::Data::df_of))]
    fn df(&self, v: u32) -> Option<Data>
        ensures { result ≡ df_of v self.now.data.now self.now.objects }
    {
        if !form::is_df(self.objects) || !self.is_name_good() || !self.is_both_good(v) {
            return None;
        }
        let total = self.size_in(8);
        if total == 0 {
            return None;
        }
        Some(Data::Df(self.new_file(0, total)))
    }

    // An EF by its size and its record length.
    #[tactic(auto, unfolding(crate::specs::Data::sized_ef))]
    fn sized_ef(&self, descriptor: u8) -> Option<Data>
        ensures { result ≡ sized_ef self.now.data.now self.now.objects descriptor }
    {
        let size = self.size_in(7);
        let length = self.record_length_in();
        if size == 0 || !rules::value::good_length(descriptor, length, size) {
            return None;
        }
        Some(Data::Ef(self.new_file(length, size)))
    }

    // An EF by its list and its values.
    #[tactic(auto, unfolding(crate::specs::Data::ef_of))]
    fn ef(&self, descriptor: u8, v: u32) -> Option<Data>
        ensures { result ≡ ef_of v self.now.data.now self.now.objects descriptor }
    {
        if !form::is_ef(self.objects, descriptor) || !self.is_both_good(v) {
            return None;
        }
        self.sized_ef(descriptor)
    }

    // The file by the class of its descriptor, once the objects end the data.
    #[tactic(auto, unfolding(crate::specs::Data::file_of))]
    pub fn file(&self, v: u32) -> Option<Data>
        ensures { result ≡ file_of v self.now.data.now self.now.objects }
    {
        if self.objects.next != self.data.len() {
            return None;
        }
        let descriptor = self.byte_in(0);
        match descriptor::class(descriptor) {
            descriptor::DF => self.df(v),
            descriptor::EF => self.ef(descriptor, v),
            _ => None,
        }
    }
}

#[cfg(test)]
mod tests {
    use super::*;
    use template::gather;

    // An EF of nine bytes, 6F07, as its descriptor, identifier, life cycle, rule and size say: 82 stands at place 0, where nothing that
    // was gathered does.
    #[test]
    fn judges_an_object_at_place_0(rt: HostRuntime) {
        let mut values = [None; 12];
        values[0] = Some(Span { start: 0, end: 2 });
        values[1] = Some(Span { start: 2, end: 4 });
        values[3] = Some(Span { start: 4, end: 5 });
        values[4] = Some(Span { start: 5, end: 7 });
        values[7] = Some(Span { start: 7, end: 9 });
        let sent = Sent {
            data: &[0x41, 0x21, 0x6F, 0x07, 0x05, 0x01, 0x00, 0x00, 0x09],
            objects: Objects { values, next: 9 },
        };
        let Some(Data::Ef(file)) = sent.file(1) else {
            assert!(rt; false, "no EF");
            return;
        };
        assert_eq!(rt; file.descriptor, 0x41);
        assert_eq!(rt; file.identifier, 0x6F07);
        assert_eq!(rt; file.life, 0x05);
        assert_eq!(rt; file.form, access::COMPACT);
        assert_eq!(rt; file.record_length, 0);
        assert_eq!(rt; file.size, 9);
        assert_eq!(rt; (file.rule.start, file.rule.end), (5, 7));
        assert_eq!(rt; (file.name.start, file.name.end), (0, 0));
    }

    // The EF of 01's replay, gathered; and with a byte more behind it.
    #[test]
    fn judges_what_was_gathered(rt: HostRuntime) {
        let data = [
            0x62, 0x13, 0x82, 0x02, 0x41, 0x21, 0x83, 0x02, 0x6F, 0x07, 0x8A, 0x01, 0x05, 0x8C,
            0x02, 0x01, 0x00, 0x80, 0x02, 0x00, 0x09, 0x00,
        ];
        let gathered = Gathered {
            data: &data[..21],
            objects: gather::all(&data[..21]),
        };
        let Some(Data::Ef(file)) = gathered.file(1) else {
            assert!(rt; false, "no EF");
            return;
        };
        assert_eq!(rt; file.identifier, 0x6F07);
        assert_eq!(rt; file.size, 9);
        assert_eq!(rt; (file.rule.start, file.rule.end), (15, 17));
        let more = Gathered {
            data: &data,
            objects: gather::all(&data),
        };
        assert!(rt; more.file(1).is_none());
    }
}
