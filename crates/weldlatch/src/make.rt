// The command `make`: films from a card, a picture and a tape. Every row is read back before it counts, and nothing is
// written unless the run is full.
use crate::failure::Failure;
use crate::film_files::{FilmFiles, Films};
use crate::progress::Progress;
use crate::reader::Reader;
use crate::text::Words;
use crate::{arguments, files, report};
use cards::CardScheme;
use maker::Maker;
use pictures::Picture;
use schemes::Scheme;
use tapes::{NoiseTape, Tape};

// The run of a page: the maker, of how many bytes its tape was, what reads its rows back, and the films.
#[derive(Drop)]
struct PageRun {
    maker: Maker<CardScheme, NoiseTape>,
    supply: usize,
    reader: Reader,
    films: Films,
}

impl PageRun {
    // Makes every row of the picture, reads it back, and puts its strips on the films.
    fn make_rows(&mut self, rt: &HostRuntime, picture: &Picture<'_>) -> Result<(), Failure> {
        let mut strips = vec![in rt.alloc(); 0; self.films.row_size()]?;
        let mut work = vec![in rt.alloc(); 0; usize::from(self.reader.scheme.columns())]?;
        let mut progress = Progress::new(rt)?;
        let supply = self.supply;
        // By number: a failure names the row, and of numbers zipped with rows it is not known that `row + 1` fits.
        for row in 0..picture.height() {
            let secret = picture.row(row)?;
            self.maker
                .row(secret, &mut strips, &mut work)
                .map_err(|why| Failure::Row { why, row, supply })?;
            self.reader.check_row(secret, &strips)?;
            self.films.add(&strips)?;
            progress.report(rt, row + 1, picture.height())?;
        }
        Ok(())
    }

    // Ends the run, says how it went, and writes the films if it is full.
    fn finish(self, rt: &HostRuntime, film_files: FilmFiles<'_>) -> Result<(), Failure> {
        let PageRun {
            maker,
            supply,
            reader,
            films,
        } = self;
        let closed = maker.close();
        if !closed.is_full {
            return Err(Failure::BrokenOff);
        }
        let name = report::name(&reader.scheme);
        let n = reader.scheme.keyholders();
        let m = reader.scheme.columns();
        println!(rt; "{name} {n}, {m} columns")?;
        println!(rt;
            "picture {} by {}, films {} by {}",
            reader.width, films.height, films.width, films.height
        )?;
        println!(rt;
            "rows made {}, bytes taken {} of {supply}",
            closed.tally.made, closed.tally.taken
        )?;
        println!(rt; "every row read back through{}", Words(&reader.sets))?;
        film_files.write(rt, &films)
    }
}

// `make [--force] CARD PICTURE TAPE PREFIX`
pub fn run(rt: &HostRuntime, words: &[String]) -> Result<(), Failure> {
    let heap = rt.alloc();
    let (overwrite, words) = arguments::overwrite(words);
    let [card, picture, tape, prefix] = words else {
        return Err(Failure::Usage);
    };
    let (card, scheme) = files::open_card(rt, card.as_str())?;
    let film_files = FilmFiles {
        prefix: prefix.as_str(),
        keyholders: scheme.keyholders(),
        overwrite,
    };
    film_files.check_new(rt)?;
    let file = files::read(rt, picture.as_str())?;
    let picture = pictures::open(&file)?;
    let tape = NoiseTape::new(files::read(rt, tape.as_str())?);
    let supply = tape.waiting();
    let films = Films::new(heap, &scheme, picture.width(), picture.height());
    let own = cards::scheme(heap, &card)?;
    let reader = Reader::new(heap, scheme, picture.width())?;
    let mut run = PageRun {
        maker: Maker::new(own, tape, picture.width(), picture.height()),
        supply,
        reader,
        films,
    };
    run.make_rows(rt, &picture)?;
    run.finish(rt, film_files)
}
